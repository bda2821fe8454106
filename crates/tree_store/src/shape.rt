// How the cells of a tree are divided into levels.
ghost use Rattle.std.specs.Prelude.{◌≡◌, ◌≤◌};
ghost use Rattle.tree_store.specs.Levels.{covering, level_count};

// A tree's fan-out, the cells of its lowest level and its levels. A tree over too few cells has no cell and one level: an `Option`
// of a shape would be opened in every method to say the same.
#[derive(Clone, Copy)]
pub(crate) struct Shape {
    pub(crate) fan_out: usize,
    pub(crate) capacity: usize,
    pub(crate) levels: usize,
    ghost fanned: { (2 ≤ fan_out) × (fan_out ≤ 64) },
    ghost sized: { capacity ≤ 1048576 },
    ghost levelled: { levels ≡ level_count fan_out capacity },
}

impl Shape {
    // How many cells one level up stand over so many, a rest counting too. Three loops climb so, each with its own work between.
    pub(crate) fn above(self, cells: usize) -> usize
        ensures { result ≡ covering self.fan_out cells }
    {
        cells.div_ceil(self.fan_out)
    }
}
