// Key sources that stand on others, and the envelopes between them.
#![tactic(auto)]

mod coarse;
mod joint;
mod posting;

pub use coarse::Coarse;
pub use joint::Joint;
pub use posting::post;
