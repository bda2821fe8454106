// Walks over the levels of a tree, from the lowest up.
ghost use Rattle.std.specs.Prelude.{◌≡◌, ◌+◌, ◌-◌, ◌<◌, ◌≤◌, length, take, drop};
ghost use Rattle.group.specs.Kind.{sum};
ghost use Rattle.store.specs.Contents.{between};
ghost use Rattle.tree_store.specs.Shapes.{raised_in};
ghost use Rattle.tree_store.specs.Trees.{tree, Summed};

use super::TreeStore;
use group::{Group, fold};

impl<'a, G: Group> TreeStore<'a, G> {
    // Enters the next figure in one cell of each level.
    #[tactic(auto, using(crate::proofs::Shapes::places_room))]
    pub(crate) fn raise(&mut self, figure: G)
        requires { self.old.used < self.old.shape.capacity }
        ensures writes { self.new.cells.now ≡ raised_in G.Group.kind self.old.shape self.old.used figure self.old.cells.now (self.old.shape.levels - 1) }
        ensures place { self.new.cells.ghost_name ≡ self.old.cells.ghost_name }
        ensures shape { self.new.shape ≡ self.old.shape }
        ensures used { self.new.used ≡ self.old.used }
    {
        let shape = self.shape;
        let number = self.used;
        let cells = &mut *self.cells;
        cells[number] = figure;
        let mut start = 0;
        let mut width = shape.capacity;
        let mut at = number;
        // The loop's number is read by the proof alone.
        for below in 0..shape.levels - 1 {
            start += width;
            width = shape.above(width);
            at /= shape.fan_out;
            let i = start + at;
            cells[i] = cells[i].add(figure);
        }
    }

    // The sum of the cells numbered from up to, not including, to, of the level that begins at start.
    fn read(&self, start: usize, from: usize, to: usize) -> G
        requires ordered { from ≤ to }
        requires within { start + to ≤ length self.now.cells.now }
        ensures { G.Group.kind.value result ≡ sum G.Group.kind (take (to - from) (drop (start + from) self.now.cells.now)) }
    {
        fold(&self.cells[start + from..start + to])
    }

    // The sum of the figures numbered a up to, not including, b. At each level it reads the cells outside the whole cells one
    // level up, fewer than the fan-out at either end, and goes on with those. A stretch that ends with the last figure may take
    // in a cell that is not yet full: it holds nothing beyond the stretch.
    pub(crate) fn sum_between(&self, a: usize, b: usize) -> G
        requires ordered { a ≤ b }
        requires within { b ≤ self.now.used }
        ensures { Summed G.Group.kind self.now → G.Group.kind.value result ≡ sum G.Group.kind (between a b (tree self.now).entries) }
    {
        let shape = self.shape;
        let whole = b == self.used;
        let mut total = G::identity();
        let mut start = 0;
        let mut width = shape.capacity;
        let mut from = a;
        let mut to = b;
        // Here too the loop's number is read by the proof alone.
        for level in 0..shape.levels - 1 {
            let first = shape.above(from);
            let last = if whole {
                shape.above(to)
            } else {
                to / shape.fan_out
            };
            if first >= last {
                break;
            }
            let before = self.read(start, from, first * shape.fan_out);
            let after = self.read(start, to.min(last * shape.fan_out), to);
            total = total.add(before).add(after);
            start += width;
            width = shape.above(width);
            from = first;
            to = last;
        }
        total.add(self.read(start, from, to))
    }
}
