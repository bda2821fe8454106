// Making and reading a plan.
ghost use Rattle.std.specs.Prelude.{◌≡◌, Ok};
ghost use Rattle.refusal.specs.Judged.{first, refusal};
ghost use Rattle.tree_store.specs.Levels.{Levelled, cells_needed};
ghost use Rattle.tree_store.specs.Plans.{plan_rules, figures};
ghost use Rattle.tree_store.specs.Shapes.{cells_of};
ghost use Rattle.tree_store.specs.declared.planning.Plan.{Plan};

use super::Plan;
use crate::shape::Shape;
use refusal::Refusal;
use store::MAX_CAPACITY;

impl Plan {
    // A plan for a tree over so many cells.
    #[tactic(auto, using(std::proofs::lemmas::Bool::Decides::nat_tests))]
    pub fn new(fan_out: usize, capacity: usize, cells: usize) -> Result<Plan, Refusal>
        ensures refuses { refusal result ≡ first (plan_rules fan_out capacity cells) }
        ensures plans { (p : Plan) → result ≡ Ok p → figures p ≡ (fan_out, capacity, cells_needed fan_out capacity) }
    {
        if fan_out < 2 || fan_out > 64 {
            return Err(Refusal::FanOut);
        }
        if capacity < 1 || capacity > MAX_CAPACITY {
            return Err(Refusal::Capacity);
        }
        // As many turns as there are levels above the lowest, which the loop finds out.
        let mut top = 0;
        let mut width = capacity;
        let mut needed = capacity;
        while width > 1 {
            width = width.div_ceil(fan_out);
            needed += width;
            top += 1;
        }
        if cells < needed {
            return Err(Refusal::TooFewCells);
        }
        let shape = Shape {
            fan_out,
            capacity,
            levels: top + 1,
        };
        Ok(Plan {
            shape,
            cells: needed,
        })
    }

    pub fn fan_out(&self) -> usize
        ensures { result ≡ self.now.shape.fan_out }
    {
        self.shape.fan_out
    }

    pub fn capacity(&self) -> usize
        ensures { result ≡ self.now.shape.capacity }
    {
        self.shape.capacity
    }

    // How many levels the tree has: the highest is the only one with one cell.
    pub fn levels(&self) -> usize
        ensures is { result ≡ self.now.shape.levels }
        ensures until { Levelled self.now.shape.fan_out self.now.shape.capacity result }
    {
        self.shape.levels
    }

    // How many cells a tree of this plan needs: those of all its levels.
    #[tactic(auto, using(crate::proofs::Shapes::plan_cells))]
    pub fn cells(&self) -> usize
        ensures is { result ≡ self.now.cells }
        ensures all { result ≡ cells_of self.now.shape }
    {
        self.cells
    }
}
