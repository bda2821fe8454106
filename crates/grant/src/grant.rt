// Grants: seeds of a key tree that give some of its keys and no other.
ghost use Rattle.std.specs.Prelude.{◌≡◌, ◌≤◌, true, length};
ghost use Rattle.grant.specs.Rows.{sound_rows, BlankAfter};

use cipher::Block;
use cover::Height;
pub use issuing::issue;
pub use narrowing::narrow;
pub use row::Row;
use std::marker::PhantomData;

mod filling;
mod issuing;
mod narrowing;
mod reading;
mod seeding;

mod row {
    use super::Block;

    // A node of a tree with its seed. The node's numbers are the row's own fields, which every reader of a row names.
    #[derive(Clone, Copy, PartialEq, Eq)]
    pub struct Row {
        pub level: u32,
        pub index: u64,
        pub seed: Block,
    }

    impl Row {
        // Row (0, 0) with seed zero, which stands where no row is. The name says so, where a derived default would say zeros.
        pub(crate) const BLANK: Row = Row {
            level: 0,
            index: 0,
            seed: Block { high: 0, low: 0 },
        };
    }
}

// Some keys of a tree under one cipher. The rows are the first `count`; behind them no seed is held, so that a narrowed grant keeps no old one.
// Places and count stand here, and not as an `ArrayVec`, since no clause can speak of what stands behind the items of one.
#[derive(Drop)]
pub struct Grant<C> {
    height: Height,
    count: usize,
    rows: [Row; 128],
    cipher: PhantomData<C>,
    ghost sized: { length rows ≡ 128 },
    ghost some: { 1 ≤ count },
    ghost fits: { count ≤ 128 },
    ghost sound: { sound_rows height.levels count rows ≡ true },
    ghost clear: { BlankAfter count rows },
}
