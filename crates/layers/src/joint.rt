// A source that takes two others together.
ghost use Rattle.layers.specs.Layers.{joint};

use group::Group;
use source::KeySource;

// It has the keys that both have, and each is the sum of the two.
#[derive(Drop)]
pub struct Joint<A, B> {
    pub one: A,
    pub other: B,
}

impl<G: Group, A: KeySource<G>, B: KeySource<G>> KeySource<G> for Joint<A, B> {
    ghost keys = { λ s. joint G.Group.kind (A.KeySource.keys s.one) (B.KeySource.keys s.other) };

    fn key(&self, number: u64) -> Option<G> {
        let x = self.one.key(number)?;
        let y = self.other.key(number)?;
        Some(x.add(y))
    }
}
