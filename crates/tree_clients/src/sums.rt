// Two lines are sealed into a tree, and their sum is opened.
ghost use Rattle.std.specs.Prelude.{◌≡◌, ◌<◌, ◌≤◌, true, ◌↔◌, length, is_ok};
ghost use Rattle.source.specs.Sources.{Has};
ghost use Rattle.clients.specs.Two.{SumOfTwo};
ghost use Rattle.tree_store.specs.Plans.{places};

use clients::two_in;
use group::Group;
use refusal::Refusal;
use source::KeySource;
use tree_store::{Plan, TreeStore};

// In a new tree over these cells.
pub fn two_tree<G: Group, K: KeySource<G> + Drop>(
    plan: Plan,
    source: K,
    cells: &mut [G],
    x: G,
    y: G,
) -> Result<G, Refusal>
    ensures sums { SumOfTwo G.Group.kind (K.KeySource.keys source) (places plan (length cells.old)) x y result }
    ensures answered { (is_ok result ≡ true) ↔ ((plan.cells ≤ length cells.old) × (2 ≤ plan.shape.capacity) × Has (K.KeySource.keys source) 0 × Has (K.KeySource.keys source) 1 × Has (K.KeySource.keys source) 2) }
    ensures spares { length cells.old < plan.cells → cells.new ≡ cells.old }
{
    let mut store = TreeStore::new(plan, cells);
    two_in(source, &mut store, x, y)
}
