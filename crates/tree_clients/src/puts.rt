// What puts leave in the cells that were lent to a tree store.
ghost use Rattle.std.specs.Prelude.{◌≡◌, ◌<◌, ◌≤◌, min, List, length, take, drop};
ghost use Rattle.tree_store.specs.Cells.{cleared};
ghost use Rattle.tree_store.specs.Plans.{places};
ghost use Rattle.tree_store.specs.Shapes.{EnteredIn, HoldsIn};
ghost use Rattle.tree_store.specs.Trees.{tree, Summed};
ghost use Rattle.tree_clients.specs.Puts.{filled, top};

use group::Group;
use store::Store;
use tree_store::{Plan, TreeStore};

// Puts two figures into a new tree. Plan and cells come apart from the caller, so each call here says what too few cells keep.
pub fn two_puts<G: Group>(plan: Plan, cells: &mut [G], x: G, y: G)
    ensures both { plan.cells ≤ length cells.old → 2 ≤ plan.shape.capacity → (between : List G) × EnteredIn G.Group.kind plan.shape 0 x (cleared G.Group.kind.zero plan.cells cells.old) between × EnteredIn G.Group.kind plan.shape 1 y between cells.new }
    ensures one { plan.cells ≤ length cells.old → plan.shape.capacity ≡ 1 → EnteredIn G.Group.kind plan.shape 0 x (cleared G.Group.kind.zero plan.cells cells.old) cells.new }
    ensures spares { length cells.old < plan.cells → cells.new ≡ cells.old }
{
    let mut store = TreeStore::new(plan, cells);
    let _ = store.put(x);
    let _ = store.put(y);
}

// Puts the figures, one after another; those that find the tree full are refused. What a tree keeps besides is no promise of
// every store, so this stands beside the one that puts into any store.
fn put_all<'a, G: Group>(store: &mut TreeStore<'a, G>, figures: &[G])
    ensures leaves { tree store.new ≡ filled (tree store.old) figures.now }
    ensures keeps { Summed G.Group.kind store.old → Summed G.Group.kind store.new }
    ensures shape { store.new.shape ≡ store.old.shape }
    ensures place { store.new.cells.ghost_name ≡ store.old.cells.ghost_name }
    ensures beyond { drop (top store.old.shape) store.new.cells.now ≡ drop (top store.old.shape) store.old.cells.now }
    ensures spares { (tree store.old).capacity ≡ 0 → store.new.cells.now ≡ store.old.cells.now }
{
    for figure in figures {
        let _ = store.put(*figure);
    }
}

// Puts the figures into a new tree, and answers how many it took.
pub fn fill<G: Group>(plan: Plan, cells: &mut [G], figures: &[G]) -> usize
    ensures count { result ≡ min (places plan (length cells.old)) (length figures.now) }
    ensures holds { plan.cells ≤ length cells.old → HoldsIn G.Group.kind plan.shape (take result figures.now) cells.new }
    ensures beyond { drop plan.cells cells.new ≡ drop plan.cells cells.old }
    ensures spares { length cells.old < plan.cells → cells.new ≡ cells.old }
{
    let mut store = TreeStore::new(plan, cells);
    put_all(&mut store, figures);
    store.len()
}
