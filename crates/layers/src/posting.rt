// The envelopes of a coarse source are posted one after the other.
ghost use Rattle.std.specs.Prelude.{◌≡◌, false, length, is_ok};
ghost use Rattle.refusal.specs.Judged.{left_by};
ghost use Rattle.layers.specs.Posting.{Posts, envelope};
ghost use Rattle.layers.specs.Fit.{Continues, Grows};

use group::Group;
use refusal::Refusal;
use source::KeySource;
use store::Store;

const MAX_STEP: u64 = 65536;

// Only who has the hiding key gets the hidden one back.
fn hide<G: Group>(hidden: G, hiding: G) -> G
    ensures { result ≡ G.Group.kind.plus hidden hiding }
{
    hidden.add(hiding)
}

// Puts the next envelope: fine key j · step under the other source's key j, j being the count. Answers j. The steps are those of an
// append, but the keys come from two sources; and the envelopes are written here and only borrowed by a coarse source.
pub fn post<G: Group, S: Store<G>, F: KeySource<G>, O: KeySource<G>>(
    step: u64,
    envelopes: &mut S,
    fine: &F,
    other: &O,
) -> Result<usize, Refusal>
    ensures does { Posts G.Group.kind step (F.KeySource.keys fine.now) (O.KeySource.keys other.now) (S.Store.contents envelopes.old) result (S.Store.contents envelopes.new) }
    ensures spares { is_ok result ≡ false → envelopes.new ≡ envelopes.old }
    ensures keeps { S.Store.sound envelopes.old → S.Store.sound envelopes.new }
    ensures writes { S.Store.cells envelopes.new ≡ left_by result (S.Store.cells envelopes.old) (S.Store.written envelopes.old (envelope G.Group.kind step (F.KeySource.keys fine.now) (O.KeySource.keys other.now) (length (S.Store.contents envelopes.old).entries))) }
    ensures place { S.Store.lender envelopes.new ≡ S.Store.lender envelopes.old }
    ensures fits { Continues G.Group.kind step (F.KeySource.keys fine.now) (O.KeySource.keys other.now) (S.Store.contents envelopes.old) result (S.Store.contents envelopes.new) }
    ensures grows { Grows G.Group.kind (S.Store.contents envelopes.old) (S.Store.contents envelopes.new) }
{
    if !(1..=MAX_STEP).contains(&step) {
        return Err(Refusal::Step);
    }
    let j = envelopes.len();
    if j >= envelopes.capacity() {
        return Err(Refusal::Full);
    }
    let hiding = other.key(j as u64).ok_or(Refusal::NoKeyBefore)?;
    let hidden = fine.key(j as u64 * step).ok_or(Refusal::NoKeyAfter)?;
    envelopes.put(hide(hidden, hiding))?;
    Ok(j)
}
