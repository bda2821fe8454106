// The nodes of a key tree, and which of them cover a set of keys.
#![tactic(auto)]

mod cutting;
mod height;
mod listing;
mod next;
mod node;

pub use height::Height;
pub use listing::NodeList;
pub use next::{check_after, check_next};
pub use node::{Node, Span};
