// A source of every step-th key, made of envelopes and another source.
ghost use Rattle.layers.specs.Layers.{coarse};

use group::Group;
use source::KeySource;
use store::Store;

// Envelope j hides key j · step under key j of the other source. The envelopes are borrowed, since many readers share them.
#[derive(Drop)]
pub struct Coarse<'a, S, K> {
    pub step: u64,
    pub envelopes: &'a S,
    pub other: K,
}

impl<'a, G: Group, S: Store<G>, K: KeySource<G>> KeySource<G> for Coarse<'a, S, K> {
    ghost keys = { λ s. coarse G.Group.kind s.step (S.Store.contents s.envelopes.now).entries (K.KeySource.keys s.other) };

    fn key(&self, number: u64) -> Option<G> {
        // The first test keeps the others from dividing by zero.
        if self.step == 0 || number % self.step != 0 {
            return None;
        }
        let j = number / self.step;
        // A `usize` has 64 bits, so the cast needs no other way out.
        let envelope = self.envelopes.get(j as usize)?;
        let hiding = self.other.key(j)?;
        Some(envelope.add(hiding.negate()))
    }
}
