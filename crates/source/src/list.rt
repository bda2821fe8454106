// Keys that stand in memory.
ghost use Rattle.store.specs.Contents.{nth};

use crate::KeySource;
use group::Group;

// It has the keys numbered below the length of the list.
#[derive(Clone, Copy)]
pub struct KeyList<'a, G> {
    pub keys: &'a [G],
}

impl<'a, G: Group> KeySource<G> for KeyList<'a, G> {
    ghost keys = { λ s. nth s.keys.now };

    fn key(&self, number: u64) -> Option<G> {
        // A `usize` has 64 bits, so the cast needs no other way out.
        self.keys.get(number as usize).copied()
    }
}
