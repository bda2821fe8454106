// Where keys come from.
#![tactic(auto)]

ghost use Rattle.std.specs.Prelude.{◌≡◌};
ghost use Rattle.source.specs.Sources.{Keys};

mod list;
mod pair;

use group::Group;
pub use list::KeyList;
pub use pair::KeyPair;

// A set of numbers with a key for each. Asking changes nothing.
pub trait KeySource<G: Group> {
    ghost keys: { Self → Keys G };

    // Key `number`, where the source has it.
    fn key(&self, number: u64) -> Option<G>
        ensures { result ≡ keys self.now number };
}

// A source that is lent has the keys that it refers to.
impl<G: Group, K: KeySource<G>> KeySource<G> for &K {
    ghost keys = { λ s. K.KeySource.keys s.now };

    fn key(&self, number: u64) -> Option<G> {
        (**self).key(number)
    }
}
