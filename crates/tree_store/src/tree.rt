// A store that keeps sums of its figures in a tree of cells.
ghost use Rattle.std.specs.Prelude.{◌≤◌, length};
ghost use Rattle.tree_store.specs.Shapes.{cells_of};

pub mod calls;
mod walk;

use crate::shape::Shape;

// The levels follow one another in the cells, the lowest first: it has the figures, one to a cell, and every cell of a
// level above has the sum of a block of them. The library takes no heap, so the cells are lent, and `used` counts those in use.
#[derive(Drop)]
pub struct TreeStore<'a, G> {
    cells: &'a mut [G],
    shape: Shape,
    used: usize,
    ghost room: { cells_of shape ≤ length cells.now },
    ghost within: { used ≤ shape.capacity },
}
