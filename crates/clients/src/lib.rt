// Programs in small, proved from the contracts of the library alone: that a sum is answered exactly when it should be
// shows that no call can meet its contract by refusing, by answering a constant or by pretending to store.
#![tactic(auto)]

mod two;

pub use two::{two_flat, two_in, two_listed};
