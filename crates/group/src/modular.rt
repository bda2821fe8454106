// Numbers modulo 2^64.
ghost use Rattle.std.specs.Prelude.{◌≡◌, Some};
ghost use Rattle.std.proofs.Common.{rules};
ghost use Rattle.group.specs.Figures.{count_text};
ghost use Rattle.group.specs.Kinds.{counts, word_count};
ghost use Rattle.group.specs.Residues.{Residue};

use crate::Group;
use std::fmt;

// A number modulo 2^64; a change of -v is 2^64 - v. It lies in memory as its one word does, so that other languages can lend cells.
#[repr(C)]
#[derive(Clone, Copy, Debug, PartialEq, Eq)]
pub struct Count {
    pub value: u64,
}

impl From<u64> for Count {
    ghost from_gives = { λ n c. c.value ≡ n };

    fn from(value: u64) -> Count {
        Count { value }
    }
}

impl Group for Count {
    const KEY_WORDS: usize = 1;

    ghost KEY_WORDS = { 1 };

    ghost Value = { Residue };

    ghost kind = { counts };

    ghost made = { word_count };

    fn from_words(words: [u64; 3]) -> Count {
        Count { value: words[0] }
    }

    fn identity() -> Count {
        Count { value: 0 }
    }

    fn add(self, other: Count) -> Count {
        Count {
            value: self.value.wrapping_add(other.value),
        }
    }

    fn negate(self) -> Count {
        Count {
            value: self.value.wrapping_neg(),
        }
    }

    fn same(self, other: Count) -> bool {
        self == other
    }

    ghost one_to_three = { Prim.search rules };
}

impl fmt::Display for Count {
    ghost output = { λ c. Some (count_text c) };

    fn fmt<W: fmt::Write>(&self, f: &mut fmt::Formatter<W>) -> fmt::Result {
        if self.value < 1 << 63 {
            write!(f, "{}", self.value)
        } else {
            write!(f, "-{}", self.value.wrapping_neg())
        }
    }
}
