// Issuing a grant.
ghost use Rattle.std.specs.Prelude.{◌≡◌, length, replicate};
ghost use Rattle.cover.specs.Tree.{CoverIsOne};
ghost use Rattle.cover.specs.Cut.{spans_rows, Adds};
ghost use Rattle.cover.specs.Listed.{listed};
ghost use Rattle.grant.specs.Calls.{Issues};
ghost use Rattle.grant.specs.Histories.{Continues, issued};

use super::Grant;
use super::seeding::{SeedSource, seed_rows};
use crate::descent::descend;
use crate::key_tree::KeyTree;
use crate::scratch::{Path, Wiped};
use crate::spans::check_spans;
use cipher::{Block, Cipher};
use cover::{Node, NodeList, Span};
use refusal::Refusal;

// Each seed is walked to from the root.
impl<C: Cipher> SeedSource for KeyTree<C> {
    ghost use Rattle.std.specs.Prelude.{◌≤◌};
    ghost use Rattle.grant.specs.Grants.{seed_under};

    ghost below = { λ t n. n.level ≤ t.height.levels };

    ghost seed = { λ t n. seed_under C.encrypted t.root t.height.levels n };

    fn seed(&self, node: Node, path: &mut Path) -> Block {
        descend::<C>(
            self.root,
            self.height.levels() - node.level,
            node.index,
            path,
        )
    }
}

impl<C> KeyTree<C> {
    // Adds the nodes of the spans, one span after the other, where there is room for all. The list is lent, since one that stood in the
    // answer would be copied on its way out.
    fn cut_spans(&self, spans: &[Span], nodes: &mut NodeList) -> Result<(), Refusal>
        ensures { Adds result (listed nodes.old) (spans_rows self.now.height.levels spans.now) (listed nodes.new) }
    {
        let root = Node {
            level: self.height.levels(),
            index: 0,
        };
        for span in spans {
            nodes.cut(root, *span)?;
        }
        Ok(())
    }
}

// All the ways out of an issue, over scratch that the caller wipes. The rows go straight into the grant, so that no other memory has all
// of their seeds.
fn issue_with<C: Cipher>(
    tree: &KeyTree<C>,
    spans: &[Span],
    scratch: &mut [u64],
    grant: &mut Grant<C>,
) -> Result<(), Refusal>
    ensures { Issues C.encrypted tree.now.height.levels tree.now.root spans.now (length scratch.old) grant.old result grant.new }
{
    // By `let .. else`, whose way on tells the proofs how many words there are.
    let Some(path) = scratch.first_chunk_mut::<66>() else {
        return Err(Refusal::ShortScratch);
    };
    if spans.is_empty() {
        return Err(Refusal::NoSpans);
    }
    if spans.len() > 16 {
        return Err(Refusal::TooManySpans);
    }
    check_spans(tree.height, spans)?;
    let mut list = NodeList::new();
    tree.cut_spans(spans, &mut list)?;
    let nodes = list.as_slice();
    seed_rows(tree, nodes, path, &mut grant.rows);
    grant.height = tree.height;
    grant.count = nodes.len();
    Ok(())
}

// Fills the grant with the cover of the keys that the spans name.
pub fn issue<C: Cipher>(
    tree: &KeyTree<C>,
    spans: &[Span],
    scratch: &mut [u64],
    grant: &mut Grant<C>,
) -> Result<(), Refusal>
    ensures does { Issues C.encrypted tree.now.height.levels tree.now.root spans.now (length scratch.old) grant.old result grant.new }
    ensures lawful { Continues C.encrypted grant.old (issued tree.now.height.levels tree.now.root spans.now (length scratch.old) result) grant.new }
    ensures covers { CoverIsOne }
    ensures wiped { scratch.new ≡ replicate (length scratch.old) 0 }
{
    let mut guard = Wiped { words: scratch };
    issue_with(tree, spans, &mut *guard.words, grant)
}
