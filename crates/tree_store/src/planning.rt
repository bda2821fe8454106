// How many cells a tree of sums needs.
ghost use Rattle.std.specs.Prelude.{◌≡◌, ◌≤◌};
ghost use Rattle.tree_store.specs.Levels.{cells_needed};

mod calls;

use crate::shape::Shape;

// A tree's shape, and the cells that it needs. It has a place for a figure.
#[derive(Clone, Copy)]
pub struct Plan {
    pub(crate) shape: Shape,
    pub(crate) cells: usize,
    ghost some: { 1 ≤ shape.capacity },
    ghost counted: { cells ≡ cells_needed shape.fan_out shape.capacity },
}
