// Putting nodes with their seeds in the place of rows.
ghost use Rattle.std.specs.Prelude.{◌≡◌, ℕ, ◌<◌, ◌≤◌, map, length, take, slice_index_or};
ghost use Rattle.cover.specs.declared.node.Node.{Node};
ghost use Rattle.cover.specs.Cut.{node as node_at};
ghost use Rattle.cipher.specs.declared.Block.{Block};
ghost use Rattle.grant.specs.Rows.{BlankAfter};
ghost use Rattle.grant.specs.Grants.{seeded_by};

use super::Row;
use crate::scratch::Path;
use cipher::Block;
use cover::Node;

// What the seeds of nodes come from.
pub(crate) trait SeedSource {
    // The nodes whose seeds can be asked for.
    ghost below: { Self → Node → Type 0 };

    ghost seed: { Self → Node → Block };

    fn seed(&self, node: Node, path: &mut Path) -> Block
        requires { below self.now node }
        ensures { result ≡ seed self.now node };
}

// Puts the nodes with their seeds in the place of the rows, and leaves no seed behind them.
pub(crate) fn seed_rows<S: SeedSource>(
    source: &S,
    nodes: &[Node],
    path: &mut Path,
    rows: &mut [Row; 128],
)
    requires few { length nodes.now ≤ 128 }
    requires below { (i : ℕ) → i < length nodes.now → S.below source.now (slice_index_or nodes.now i (node_at 0 0)) }
    ensures long { length rows.new ≡ 128 }
    ensures clear { BlankAfter (length nodes.now) rows.new }
    ensures made { take (length nodes.now) rows.new ≡ map (seeded_by (S.seed source.now)) nodes.now }
{
    rows.fill(Row::BLANK);
    // By index, since a proof knows no element that was written through a zip of mutable places.
    for (i, node) in nodes.iter().enumerate() {
        rows[i] = Row {
            level: node.level,
            index: node.index,
            seed: source.seed(*node, path),
        };
    }
}
