// What a flat store does.
ghost use Rattle.std.specs.Prelude.{◌≡◌, ◌+◌, false, length, slice_set};
ghost use Rattle.store.specs.Contents.{empty};
ghost use Rattle.store.specs.Flat.{flat, flat_places};

use super::FlatStore;
use crate::{MAX_CAPACITY, Store, check_span};
use group::{Group, fold};
use refusal::Refusal;

impl<'a, G: Group> FlatStore<'a, G> {
    // A store over these cells, none of which it touches. It has a place for each, up to 1048576.
    pub fn new(cells: &'a mut [G]) -> FlatStore<'a, G>
        ensures begins { flat result ≡ empty (flat_places (length cells.old)) }
        ensures touches { result.cells.now ≡ cells.old }
        ensures place { result.cells.ghost_name ≡ cells.entry.ghost_name }
    {
        FlatStore { cells, used: 0 }
    }
}

impl<'a, G: Group> Store<G> for FlatStore<'a, G> {
    ghost contents = { flat };

    // It keeps no sums.
    ghost sound = { λ _. Unit {0} };

    ghost cells = { λ s. s.cells.now };

    ghost lender = { λ s. s.cells.ghost_name };

    // The next cell is written, and no other.
    ghost written = { λ s x. slice_set s.cells.now (length (flat s).entries) x };

    fn len(&self) -> usize {
        self.used
    }

    fn capacity(&self) -> usize {
        self.cells.len().min(MAX_CAPACITY)
    }

    fn put(&mut self, figure: G) -> Result<(), Refusal> {
        if self.used >= self.capacity() {
            return Err(Refusal::Full);
        }
        self.cells[self.used] = figure;
        self.used += 1;
        Ok(())
    }

    fn get(&self, i: usize) -> Option<G> {
        self.cells[..self.used].get(i).copied()
    }

    fn total(&self, a: usize, b: usize) -> Result<G, Refusal> {
        check_span(self.used, a, b)?;
        Ok(fold(&self.cells[a..b]))
    }
}
