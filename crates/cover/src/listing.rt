// At most 128 nodes, without an allocator.
ghost use Rattle.std.specs.Prelude.{◌≤◌, length};

use crate::node::Node;
use arrayvec::ArrayVec;

mod filling;

// The nodes lie in the list itself, as an `ArrayVec` keeps its items, so nothing is allocated.
#[derive(Drop)]
pub struct NodeList {
    nodes: ArrayVec<Node, 128>,
    ghost fits: { length nodes.items ≤ 128 },
}

// Why a list takes no node more. A cut answers with this and not with a refusal, so that its answer is one bit, which the compiler hands on
// without a way back from the right half; with a refusal in it a cut took two fifths more time.
#[derive(Clone, Copy)]
pub(crate) struct NoRoom;
