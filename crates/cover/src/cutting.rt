// Cutting a node by a span, on plain numbers: no seed is needed to know which nodes a cover has.
ghost use Rattle.std.specs.Prelude.{◌≡◌, ◌+◌, ◌*◌, ◌^◌, ◌≤◌, length, take};
ghost use Rattle.cover.specs.Cut.{cut as cut_rows, Fills};
ghost use Rattle.cover.specs.Listed.{listed};

use crate::listing::{NoRoom, NodeList};
use crate::node::{Node, Span};

// The first key under a node.
pub(crate) fn first_key(level: u32, index: u64) -> u64
    requires low { level ≤ 32 }
    requires inside { index * 2 ^ level ≤ 2 ^ 32 }
    ensures { result ≡ index * 2 ^ level }
{
    index << level
}

// Adds the nodes that a node gives, where there is room for all. One that lies partly in the span gives those of its left half, then those
// of its right half.
pub(crate) fn cut(level: u32, index: u64, span: Span, rows: &mut NodeList) -> Result<(), NoRoom>
    requires low { level ≤ 32 }
    requires inside { (index + 1) * 2 ^ level ≤ 2 ^ 32 }
    ensures added { Fills result (listed rows.old) (cut_rows span.from span.to level index) (listed rows.new) }
    ensures kept { take (length (listed rows.old)) (listed rows.new) ≡ listed rows.old }
{
    let first = first_key(level, index);
    let past = first_key(level, index + 1);
    if span.to <= first || past <= span.from {
        return Ok(());
    }
    if span.from <= first && past <= span.to {
        return rows.push(Node { level, index });
    }
    cut(level - 1, 2 * index, span, rows)?;
    cut(level - 1, 2 * index + 1, span, rows)
}
