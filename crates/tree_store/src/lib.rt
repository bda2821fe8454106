// A store that keeps sums of its figures in a tree of cells, and the plan that such a tree is made from.
#![tactic(auto)]

mod planning;
mod shape;
mod tree;

pub use planning::Plan;
pub use tree::TreeStore;
