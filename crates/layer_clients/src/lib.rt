// What a program may rely on that reads through joint and coarse sources.
#![tactic(auto)]

ghost use Rattle.std.specs.Prelude.{◌≡◌, ◌≤◌, true, ◌↔◌, length, is_some, Some};
ghost use Rattle.source.specs.Sources.{Has, key};
ghost use Rattle.sealing.specs.Calls.{Opens};
ghost use Rattle.layers.specs.Layers.{coarse};
ghost use Rattle.layer_clients.specs.Readers.{OpensCoarsely, twice};

use group::Group;
use layers::{Coarse, Joint, post};
use refusal::Refusal;
use sealing::open;
use source::KeySource;
use store::{FlatStore, Store};

// Key `number` of two sources together.
pub fn joint_key<G: Group, A: KeySource<G>, B: KeySource<G>>(
    one: &A,
    other: &B,
    number: u64,
) -> Option<G>
    ensures has { (is_some result ≡ true) ↔ (Has (A.KeySource.keys one.now) number × Has (B.KeySource.keys other.now) number) }
    ensures figure { (x : G) → result ≡ Some x → x ≡ G.Group.kind.plus (key G.Group.kind (A.KeySource.keys one.now) number) (key G.Group.kind (B.KeySource.keys other.now) number) }
{
    let joint = Joint { one, other };
    joint.key(number)
}

// Posts two envelopes into these cells, and reads the second key through them.
pub fn second_key<G: Group, F: KeySource<G>, O: KeySource<G>>(
    cells: &mut [G],
    step: u64,
    fine: &F,
    other: &O,
) -> Option<G>
    ensures answers { (is_some result ≡ true) ↔ ((1 ≤ step) × (step ≤ 65536) × (2 ≤ length cells.old) × Has (O.KeySource.keys other.now) 0 × Has (O.KeySource.keys other.now) 1 × Has (F.KeySource.keys fine.now) 0 × Has (F.KeySource.keys fine.now) step) }
    ensures counts { (x : G) → result ≡ Some x → G.Group.kind.value x ≡ G.Group.kind.value (key G.Group.kind (F.KeySource.keys fine.now) step) }
    ensures writes { cells.new ≡ twice G.Group.kind step (F.KeySource.keys fine.now) (O.KeySource.keys other.now) cells.old }
{
    let mut envelopes = FlatStore::new(cells);
    let _ = post(step, &mut envelopes, fine, other);
    let _ = post(step, &mut envelopes, fine, other);
    let coarse = Coarse {
        step,
        envelopes: &envelopes,
        other,
    };
    coarse.key(step)
}

// The sum of lines a to b - 1, for a reader that has envelopes and keys of the other source.
pub fn open_coarsely<G: Group, S: Store<G>, E: Store<G>, O: KeySource<G>>(
    store: &S,
    step: u64,
    envelopes: &E,
    other: &O,
    a: usize,
    b: usize,
) -> Result<G, Refusal>
    ensures does { Opens G.Group.kind (coarse G.Group.kind step (E.Store.contents envelopes.now).entries (O.KeySource.keys other.now)) (S.Store.contents store.now) (S.Store.sound store.now) a b result }
    ensures faithful { OpensCoarsely G.Group.kind S.Store.contents S.Store.sound store.now step (E.Store.contents envelopes.now) (O.KeySource.keys other.now) a b result }
{
    let reader = Coarse {
        step,
        envelopes,
        other,
    };
    open(store, &reader, a, b)
}
