// Key trees, and grants of some of their keys.
#![tactic(auto)]

mod descent;
mod grant;
mod key_tree;
mod scratch;
mod spans;

pub use grant::{Grant, Row, issue, narrow};
pub use key_tree::KeyTree;
