// Two lines are sealed and their sum is opened: in any store, over lent cells, and under listed keys.
ghost use Rattle.std.specs.Prelude.{◌≡◌, ◌≤◌, true, ◌↔◌, [], length, is_ok, Ok};
ghost use Rattle.refusal.specs.Judged.{first, refusal};
ghost use Rattle.store.specs.Contents.{nth};
ghost use Rattle.store.specs.Flat.{flat_places};
ghost use Rattle.clients.specs.Two.{SumOfTwo, CellsOfTwo, both_left, two_rules};
ghost use Rattle.clients.specs.Plain.{Sums, PlainSums};

use group::{Count, Flags, Group, Moments};
use refusal::Refusal;
use sealing::{Running, open};
use source::{KeyList, KeySource};
use store::{FlatStore, Store};

// In any new store, with the keys of any source. A caller has keys, cells and lines apart, so they are arguments apart.
pub fn two_in<G: Group, S: Store<G>, K: KeySource<G> + Drop>(
    source: K,
    store: &mut S,
    x: G,
    y: G,
) -> Result<G, Refusal>
    ensures sums { S.Store.sound store.old → (S.Store.contents store.old).entries ≡ [] → SumOfTwo G.Group.kind (K.KeySource.keys source) (S.Store.contents store.old).capacity x y result }
    ensures memory { S.Store.sound store.old → (S.Store.contents store.old).entries ≡ [] → CellsOfTwo G.Group.kind S.Store.contents S.Store.cells S.Store.written (K.KeySource.keys source) x y store.old store.new }
    ensures place { S.Store.lender store.new ≡ S.Store.lender store.old }
{
    let epoch = Running::new(source);
    epoch.append(store, x)?;
    epoch.append(store, y)?;
    let epoch = epoch.close();
    open(store, epoch.keys(), 0, 2)
}

// In a new store over these cells.
pub fn two_flat<G: Group, K: KeySource<G> + Drop>(
    source: K,
    cells: &mut [G],
    x: G,
    y: G,
) -> Result<G, Refusal>
    ensures sums { SumOfTwo G.Group.kind (K.KeySource.keys source) (flat_places (length cells.old)) x y result }
    ensures memory { cells.new ≡ both_left G.Group.kind (K.KeySource.keys source) (flat_places (length cells.old)) x y cells.old }
{
    let mut store = FlatStore::new(cells);
    two_in(source, &mut store, x, y)
}

// In a new store over these cells, under these keys; in plain arithmetic at each of the three kinds.
pub fn two_listed<G: Group>(keys: &[G], cells: &mut [G], x: G, y: G) -> Result<G, Refusal>
    ensures answered { is_ok result ≡ true ↔ ((2 ≤ length cells.old) × (3 ≤ length keys.now)) }
    ensures figure { (v : G) → result ≡ Ok v → Sums G.Group.kind v x y }
    ensures plainly { PlainSums ⟦<Count as Group>⟧.kind ⟦<Flags as Group>⟧.kind ⟦<Moments as Group>⟧.kind }
    ensures refuses { refusal result ≡ first (two_rules (nth keys.now) (flat_places (length cells.old))) }
    ensures memory { cells.new ≡ both_left G.Group.kind (nth keys.now) (flat_places (length cells.old)) x y cells.old }
{
    two_flat(KeyList { keys }, cells, x, y)
}
