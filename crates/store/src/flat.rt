// A store over cells that it is lent.
ghost use Rattle.std.specs.Prelude.{◌≤◌, length};

pub mod calls;

// Figures stand in the first cells, one to a cell. The library takes no heap, so the cells are lent, and `used` counts those in
// use.
#[derive(Drop)]
pub struct FlatStore<'a, G> {
    cells: &'a mut [G],
    used: usize,
    ghost room: { (used ≤ length cells.now) × (used ≤ 1048576) },
}
