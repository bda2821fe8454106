// Filling a list of nodes.
ghost use Rattle.std.specs.Prelude.{◌≡◌, ◌≤◌, [], ◌∷◌, ◌++◌, length, take};
ghost use Rattle.refusal.specs.Judged.{judged, left_by};
ghost use Rattle.cover.specs.Cut.{cut as cut_rows, cut_rules, Fills, CutsCover, CutsNarrow};
ghost use Rattle.cover.specs.Listed.{listed};
ghost use Rattle.cover.specs.Tree.{CoverIsOne, NoRowsNoKeys};

use super::{NoRoom, NodeList};
use crate::cutting::cut;
use crate::height::Height;
use crate::next::is_in_tree;
use crate::node::{Node, Span};
use arrayvec::ArrayVec;
use refusal::Refusal;

impl NodeList {
    // No nodes.
    pub fn new() -> NodeList
        ensures { listed result ≡ [] }
    {
        NodeList {
            nodes: ArrayVec::new(),
        }
    }

    // The nodes, in the order in which they came.
    pub fn as_slice(&self) -> &[Node]
        ensures nodes { result.now ≡ listed self.now }
        ensures few { length result.now ≤ 128 }
    {
        self.nodes.as_slice()
    }

    // Adds a node, where there is room.
    pub(crate) fn push(&mut self, node: Node) -> Result<(), NoRoom>
        ensures added { Fills result (listed self.old) (node ∷ []) (listed self.new) }
        ensures kept { take (length (listed self.old)) (listed self.new) ≡ listed self.old }
    {
        self.nodes.try_push(node).map_err(|_| NoRoom)
    }

    // Adds the nodes that a node gives, cut by the span. Cut so, a tree gives the cover of any spaced spans, and a cover that of what a span
    // leaves of it; a cover is the only one of its keys.
    pub fn cut(&mut self, node: Node, span: Span) -> Result<(), Refusal>
        ensures answers { result ≡ judged (cut_rules node (length (listed self.old ++ cut_rows span.from span.to node.level node.index))) tt }
        ensures leaves { listed self.new ≡ left_by result (listed self.old) (listed self.old ++ cut_rows span.from span.to node.level node.index) }
        ensures spans { CutsCover }
        ensures narrowed { CutsNarrow }
        ensures one { CoverIsOne }
        ensures none { NoRowsNoKeys }
    {
        if !is_in_tree(Height::HIGHEST, node) {
            return Err(Refusal::RowPlace);
        }
        let count = self.nodes.len();
        if let Err(NoRoom) = cut(node.level, node.index, span, self) {
            self.nodes.truncate(count);
            return Err(Refusal::TooManyRows);
        }
        Ok(())
    }
}
