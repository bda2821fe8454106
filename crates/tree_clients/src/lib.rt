// Uses of a tree store: what the laws of runs and the contracts of its calls tell whoever lends it cells.
#![tactic(auto)]

mod puts;
mod sums;

pub use puts::{fill, two_puts};
pub use sums::two_tree;
