// An epoch: all its lines are sealed with the keys of one source.
ghost use Rattle.std.specs.Prelude.{◌≡◌, false, length, is_ok};
ghost use Rattle.refusal.specs.Judged.{left_by};
ghost use Rattle.sealing.specs.Calls.{Appends, seal};
ghost use Rattle.sealing.specs.History.{appended, Continues};

use group::Group;
use refusal::Refusal;
use source::KeySource;
use store::Store;

// The ciphertext of a line between two keys, made in one place, so that a wrong sign fails as a fact here. They are two arguments,
// since each key has a refusal of its own.
fn sealed<G: Group>(line: G, before: G, after: G) -> G
    ensures { result ≡ G.Group.kind.plus (G.Group.kind.plus line before) (G.Group.kind.minus after) }
{
    line.add(before).add(after.negate())
}

// Takes lines. Running and closed epochs are two types: they share `keys` alone, and one type with a parameter for its
// state needs two marker types and a PhantomData field to save that one method.
#[derive(Drop)]
pub struct Running<K> {
    source: K,
}

// Takes no more lines; sums can still be opened with its keys.
#[derive(Drop)]
pub struct Closed<K> {
    source: K,
}

impl<K> Running<K> {
    pub fn new(source: K) -> Running<K>
        ensures { result.source ≡ source }
    {
        Running { source }
    }

    // The source, for opening sums.
    pub fn keys(&self) -> &K
        ensures { result.now ≡ self.now.source }
    {
        &self.source
    }

    // Seals the line at the end of the store, and answers its number.
    pub fn append<G: Group, S: Store<G>>(&self, store: &mut S, line: G) -> Result<usize, Refusal>
    where
        K: KeySource<G>,
        ensures does { Appends G.Group.kind (K.KeySource.keys self.now.source) (S.Store.contents store.old) line result (S.Store.contents store.new) }
        ensures spares { is_ok result ≡ false → store.new ≡ store.old }
        ensures keeps { S.Store.sound store.old → S.Store.sound store.new }
        ensures writes { S.Store.cells store.new ≡ left_by result (S.Store.cells store.old) (S.Store.written store.old (seal G.Group.kind (K.KeySource.keys self.now.source) (length (S.Store.contents store.old).entries) line)) }
        ensures place { S.Store.lender store.new ≡ S.Store.lender store.old }
        ensures faithful { Continues G.Group.kind S.Store.contents S.Store.sound (K.KeySource.keys self.now.source) store.old (appended line result) store.new }
    {
        let n = store.len();
        if n >= store.capacity() {
            return Err(Refusal::Full);
        }
        let before = self.source.key(n as u64).ok_or(Refusal::NoKeyBefore)?;
        let after = self.source.key(n as u64 + 1).ok_or(Refusal::NoKeyAfter)?;
        store.put(sealed(line, before, after))?;
        Ok(n)
    }

    // Uses up the running epoch, so that no line can follow.
    pub fn close(self) -> Closed<K>
        ensures { result.source ≡ self.source }
    {
        Closed {
            source: self.source,
        }
    }
}

impl<K> Closed<K> {
    // The source, for opening sums.
    pub fn keys(&self) -> &K
        ensures { result.now ≡ self.now.source }
    {
        &self.source
    }
}
