// Kinds of figures that add up: commutative groups, and the sum of a stretch of cells.
#![tactic(auto)]

ghost use Rattle.std.specs.Prelude.{◌≡◌, ℕ, ◌≤◌, true, List, take};
ghost use Rattle.group.specs.Kind.{Kind};

mod folding;
mod modular;
mod printing;
mod tally;
mod xor;

pub use folding::fold;
pub use modular::Count;
pub use printing::Printed;
pub use tally::Moments;
pub use xor::Flags;

// A kind of figure. Figures are compared by what they count as, since two of them may count as the same value.
pub trait Group: Copy {
    // How many words of 64 bits a key takes, from one to three.
    const KEY_WORDS: usize;

    // The same number for clauses.
    ghost KEY_WORDS: { ℕ };

    // What figures count as.
    ghost Value: { Type 0 };

    // Zero, addition and negation on figures, with the laws of a commutative group on what they count as.
    ghost kind: { Kind Self Value };

    // The figure that the words of a key make.
    ghost made: { List ℕ → Self };

    // The figure of as many words as a key takes; the others are ignored, so this is no `From`. There are always three, since no
    // array may be as long as a trait's constant says.
    fn from_words(words: [u64; 3]) -> Self
        ensures { result ≡ made (take KEY_WORDS words) };

    // Zero, sum and negation are methods of this one trait, which has their laws; the operators would be three traits more for
    // every kind.
    fn identity() -> Self
        ensures { result ≡ kind.zero };

    fn add(self, other: Self) -> Self
        ensures { result ≡ kind.plus self other };

    fn negate(self) -> Self
        ensures { result ≡ kind.minus self };

    // Whether the two count as the same. Each kind says how: a kind may have several figures for one value, so `==` is not enough.
    fn same(self, other: Self) -> bool
        ensures only { result ≡ true → kind.value self ≡ kind.value other }
        ensures whenever { kind.value self ≡ kind.value other → result ≡ true };

    // A key takes from one to three words.
    ghost one_to_three: { (1 ≤ KEY_WORDS) × (KEY_WORDS ≤ 3) };

    // KEY_WORDS, with what callers may know of it.
    final fn words_per_key() -> usize
        ensures is { result ≡ KEY_WORDS }
        ensures some { 1 ≤ result }
        ensures few { result ≤ 3 }
    {
        Self::KEY_WORDS
    }
}
