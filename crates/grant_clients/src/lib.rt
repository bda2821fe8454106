// Sums of lines that were sealed with a key tree, opened by whoever has a grant of some of its keys.
#![tactic(auto)]

ghost use Rattle.grant_clients.specs.Sharing.{Shared};

use cipher::Cipher;
use grant::Grant;
use group::Group;
use refusal::Refusal;
use sealing::open;
use store::Store;

// The sum of lines a to b - 1, where the grant has the keys at both ends.
pub fn open_granted<C: Cipher, G: Group, S: Store<G>>(
    store: &S,
    grant: &Grant<C>,
    a: usize,
    b: usize,
) -> Result<G, Refusal>
    ensures { Shared C.Cipher.encrypted G.Group.kind G.Group.KEY_WORDS G.Group.made S.Store.contents S.Store.sound store.now grant.now a b result }
{
    open(store, grant, a, b)
}
