// Counts with their sums and sums of squares.
ghost use Rattle.std.specs.Prelude.{◌≡◌, Some};
ghost use Rattle.refusal.specs.Judged.{judged};
ghost use Rattle.std.proofs.Common.{rules};
ghost use Rattle.group.specs.Figures.{moments_text};
ghost use Rattle.group.specs.Kinds.{Triple, moments, word_moments};
ghost use Rattle.group.specs.Parcels.{parcel_rules, parcel_line};
ghost use Rattle.group.specs.Residues.{Residue};

use crate::Group;
use refusal::Refusal;
use std::fmt;

// How many, their sum and the sum of their squares, each modulo 2^64. They are numbers, and no counts of the kind `Count`, for
// whoever reads the fields.
#[derive(Clone, Copy, Debug, PartialEq, Eq)]
pub struct Moments {
    pub count: u64,
    pub sum: u64,
    pub squares: u64,
}

// The square of the heaviest parcel stays below 2^62.
const MAX_GRAMS: u64 = 2147483647;

impl Moments {
    // The line of one parcel.
    pub fn parcel(grams: u64) -> Result<Moments, Refusal>
        ensures { result ≡ judged (parcel_rules grams) (parcel_line grams) }
    {
        if grams > MAX_GRAMS {
            return Err(Refusal::Weight);
        }
        Ok(Moments {
            count: 1,
            sum: grams,
            squares: grams * grams,
        })
    }
}

impl Group for Moments {
    const KEY_WORDS: usize = 3;

    ghost KEY_WORDS = { 3 };

    ghost Value = { Triple Residue };

    ghost kind = { moments };

    ghost made = { word_moments };

    fn from_words(words: [u64; 3]) -> Moments {
        Moments {
            count: words[0],
            sum: words[1],
            squares: words[2],
        }
    }

    fn identity() -> Moments {
        Moments {
            count: 0,
            sum: 0,
            squares: 0,
        }
    }

    fn add(self, other: Moments) -> Moments {
        Moments {
            count: self.count.wrapping_add(other.count),
            sum: self.sum.wrapping_add(other.sum),
            squares: self.squares.wrapping_add(other.squares),
        }
    }

    fn negate(self) -> Moments {
        Moments {
            count: self.count.wrapping_neg(),
            sum: self.sum.wrapping_neg(),
            squares: self.squares.wrapping_neg(),
        }
    }

    fn same(self, other: Moments) -> bool {
        self == other
    }

    ghost one_to_three = { Prim.search rules };
}

impl fmt::Display for Moments {
    ghost output = { λ m. Some (moments_text m) };

    fn fmt<W: fmt::Write>(&self, f: &mut fmt::Formatter<W>) -> fmt::Result {
        write!(
            f,
            "{} parcels, {} g, squares {}",
            self.count, self.sum, self.squares
        )
    }
}
