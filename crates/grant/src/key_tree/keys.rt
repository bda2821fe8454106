// Making a key tree, and its keys.
ghost use Rattle.std.specs.Prelude.{◌≡◌};
ghost use Rattle.refusal.specs.Judged.{judged};
ghost use Rattle.cover.specs.Heights.{height_rules};
ghost use Rattle.grant.specs.Seeds.{tree_keys};
ghost use Rattle.grant.specs.Trees.{tree_data};

use super::KeyTree;
use crate::grant::Row;
use cipher::{Block, Cipher};
use cover::Height;
use group::Group;
use refusal::Refusal;
use source::KeySource;
use std::marker::PhantomData;

impl<C> KeyTree<C> {
    // The tree of this height over this root seed.
    pub fn new(height: u32, root: Block) -> Result<KeyTree<C>, Refusal>
        ensures { tree_data result ≡ judged (height_rules height) (height, root) }
    {
        Ok(KeyTree {
            height: Height::new(height)?,
            root,
            cipher: PhantomData,
        })
    }
}

// It has the keys below 2^height, which are those of its root's row.
impl<G: Group, C: Cipher> KeySource<G> for KeyTree<C> {
    ghost keys = { λ t. tree_keys C.Cipher.encrypted G.Group.KEY_WORDS G.Group.made t.height.levels t.root };

    fn key(&self, number: u64) -> Option<G> {
        let root = Row {
            level: self.height.levels(),
            index: 0,
            seed: self.root,
        };
        root.key::<C, G>(number)
    }
}
