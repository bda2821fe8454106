// Bits, added by exclusive or.
ghost use Rattle.std.specs.Prelude.{ℕ, Some};
ghost use Rattle.std.proofs.Common.{rules};
ghost use Rattle.group.specs.Figures.{flags_text};
ghost use Rattle.group.specs.Kinds.{flags, word_flags};

use crate::Group;
use std::fmt;

// Sixty-four flags. Adding switches those that the other has set, so each figure is its own negation.
#[derive(Clone, Copy, Debug, PartialEq, Eq)]
pub struct Flags {
    pub bits: u64,
}

impl Group for Flags {
    const KEY_WORDS: usize = 1;

    ghost KEY_WORDS = { 1 };

    ghost Value = { ℕ };

    ghost kind = { flags };

    ghost made = { word_flags };

    fn from_words(words: [u64; 3]) -> Flags {
        Flags { bits: words[0] }
    }

    fn identity() -> Flags {
        Flags { bits: 0 }
    }

    fn add(self, other: Flags) -> Flags {
        Flags {
            bits: self.bits ^ other.bits,
        }
    }

    fn negate(self) -> Flags {
        self
    }

    fn same(self, other: Flags) -> bool {
        self == other
    }

    ghost one_to_three = { Prim.search rules };
}

impl fmt::Display for Flags {
    ghost output = { λ f. Some (flags_text f) };

    fn fmt<W: fmt::Write>(&self, f: &mut fmt::Formatter<W>) -> fmt::Result {
        write!(f, "{}", self.bits)
    }
}
