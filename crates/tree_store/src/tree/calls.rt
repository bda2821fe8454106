// What a tree does.
ghost use Rattle.std.specs.Prelude.{◌≡◌, ◌≤◌, true, false, length, is_ok};
ghost use Rattle.refusal.specs.Judged.{judged, left_by};
ghost use Rattle.store.specs.Contents.{empty, push, put_rules};
ghost use Rattle.tree_store.specs.Shapes.{EnteredIn};
ghost use Rattle.tree_store.specs.Plans.{places};
ghost use Rattle.tree_store.specs.Trees.{tree, Summed, with_figure, begun};

use super::TreeStore;
use crate::Plan;
use crate::shape::Shape;
use group::Group;
use refusal::Refusal;
use store::{Store, check_span};

impl<'a, G: Group> TreeStore<'a, G> {
    // A tree over the first cells, as many as the plan needs. Over fewer cells it has no place for a figure.
    pub fn new(plan: Plan, cells: &'a mut [G]) -> TreeStore<'a, G>
        ensures begins { tree result ≡ empty (places plan (length cells.old)) }
        ensures sound { Summed G.Group.kind result }
        ensures fans { result.shape.fan_out ≡ plan.shape.fan_out }
        ensures shape { plan.cells ≤ length cells.old → result.shape ≡ plan.shape }
        ensures touches { result.cells.now ≡ begun G.Group.kind.zero plan cells.old }
        ensures place { result.cells.ghost_name ≡ cells.entry.ghost_name }
    {
        if cells.len() < plan.cells {
            let shape = Shape {
                fan_out: plan.shape.fan_out,
                capacity: 0,
                levels: 1,
            };
            return TreeStore {
                cells,
                shape,
                used: 0,
            };
        }
        // `fill` would ask that a clone cannot fail, which a kind of figure does not say.
        let none = G::identity();
        cells[..plan.cells].fill_with(|| none);
        TreeStore {
            cells,
            shape: plan.shape,
            used: 0,
        }
    }
}

impl<'a, G: Group> Store<G> for TreeStore<'a, G> {
    ghost contents = { tree };

    ghost sound = { Summed G.Group.kind };

    ghost cells = { λ s. s.cells.now };

    ghost lender = { λ s. s.cells.ghost_name };

    ghost written = { with_figure G.Group.kind };

    #[tactic(auto, using(crate::proofs::Shapes::used_long))]
    fn len(&self) -> usize {
        self.used
    }

    fn capacity(&self) -> usize {
        self.shape.capacity
    }

    // Besides what every store says of put: its shape stays, and one cell of each level is written.
    #[tactic(auto, using(crate::proofs::Shapes::used_long))]
    fn put(&mut self, figure: G) -> Result<(), Refusal>
        ensures answers { result ≡ judged (put_rules (tree self.old)) tt }
        ensures leaves { tree self.new ≡ left_by result (tree self.old) (push (tree self.old) figure) }
        ensures spares { is_ok result ≡ false → self.new ≡ self.old }
        ensures keeps { Summed G.Group.kind self.old → Summed G.Group.kind self.new }
        ensures writes { self.new.cells.now ≡ left_by result self.old.cells.now (with_figure G.Group.kind self.old figure) }
        ensures place { self.new.cells.ghost_name ≡ self.old.cells.ghost_name }
        ensures shape { self.new.shape ≡ self.old.shape }
        ensures enters { is_ok result ≡ true → EnteredIn G.Group.kind self.old.shape (length (tree self.old).entries) figure self.old.cells.now self.new.cells.now }
    {
        if self.used >= self.shape.capacity {
            return Err(Refusal::Full);
        }
        self.raise(figure);
        self.used += 1;
        Ok(())
    }

    // As in a flat store; a body in the trait would have to ask every store for its cells.
    #[tactic(auto, using(crate::proofs::Shapes::used_long))]
    fn get(&self, i: usize) -> Option<G> {
        self.cells[..self.used].get(i).copied()
    }

    #[tactic(auto, using(crate::proofs::Shapes::used_long))]
    fn total(&self, a: usize, b: usize) -> Result<G, Refusal> {
        check_span(self.used, a, b)?;
        Ok(self.sum_between(a, b))
    }
}
