// The two keys at the ends of one span: all that a panel needs to open one sum.
ghost use Rattle.source.specs.Sources.{two_keys};

use crate::KeySource;
use group::Group;

// It has key `from` and key `to`, and no other. Where the two numbers are the same, the first figure counts.
#[derive(Clone, Copy)]
pub struct KeyPair<G> {
    pub from: u64,
    pub before: G,
    pub to: u64,
    pub after: G,
}

impl<G: Group> KeySource<G> for KeyPair<G> {
    ghost keys = { λ s. two_keys s.from s.before s.to s.after };

    fn key(&self, number: u64) -> Option<G> {
        if number == self.from {
            Some(self.before)
        } else if number == self.to {
            Some(self.after)
        } else {
            None
        }
    }
}
