// Narrowing a grant.
ghost use Rattle.std.specs.Prelude.{◌≡◌, length, replicate};
ghost use Rattle.cover.specs.Tree.{CoverIsOne, NoRowsNoKeys};
ghost use Rattle.cover.specs.Cut.{left_rows, Adds};
ghost use Rattle.cover.specs.Listed.{listed};
ghost use Rattle.grant.specs.Grants.{nodes_of};
ghost use Rattle.grant.specs.Calls.{Narrows};
ghost use Rattle.grant.specs.Histories.{Continues, narrowed};

use super::seeding::{SeedSource, seed_rows};
use super::{Grant, Row};
use crate::descent::descend;
use crate::scratch::{Path, Wiped};
use crate::spans::check_span;
use cipher::{Block, Cipher};
use cover::{Node, NodeList, Span};
use refusal::Refusal;
use std::marker::PhantomData;

// Each seed is walked to from that of the row above the node.
impl<C: Cipher> SeedSource for Grant<C> {
    ghost use Rattle.cover.specs.Tree.{first_key};
    ghost use Rattle.grant.specs.Grants.{rows_of, row_over, seed_from, Placed};

    ghost below = { λ g n. Placed (rows_of g) n };

    ghost seed = { λ g n. seed_from C.encrypted (row_over (rows_of g) (first_key n)) n };

    fn seed(&self, node: Node, path: &mut Path) -> Block {
        // In `cover` the same is asked of nodes that lie in a tree, and so is not public.
        let first_key = node.index << node.level;
        let row = self.row_over(first_key).unwrap();
        descend::<C>(row.seed, row.level - node.level, node.index, path)
    }
}

impl<C> Grant<C> {
    // Adds the nodes that the span leaves of each row, where there is room for all. An issue cuts one node by many spans, this many by
    // one. The list is lent, as in an issue.
    fn cut_rows(&self, span: Span, nodes: &mut NodeList) -> Result<(), Refusal>
        ensures { Adds result (listed nodes.old) (left_rows span (nodes_of self.now)) (listed nodes.new) }
    {
        for row in self.rows() {
            nodes.cut(row.node(), span)?;
        }
        Ok(())
    }
}

// All the ways out of a narrow, over scratch that the caller wipes.
fn narrow_with<C: Cipher>(
    grant: &mut Grant<C>,
    span: Span,
    scratch: &mut [u64],
) -> Result<(), Refusal>
    ensures { Narrows C.encrypted span (length scratch.old) grant.old result grant.new }
{
    // By `let .. else`, as in an issue.
    let Some(path) = scratch.first_chunk_mut::<66>() else {
        return Err(Refusal::ShortScratch);
    };
    check_span(grant.height, span)?;
    let mut list = NodeList::new();
    grant.cut_rows(span, &mut list)?;
    let nodes = list.as_slice();
    if nodes.is_empty() {
        return Err(Refusal::NothingLeft);
    }
    let mut rows = [Row::BLANK; 128];
    seed_rows(&*grant, nodes, path, &mut rows);
    *grant = Grant {
        height: grant.height,
        count: nodes.len(),
        rows,
        cipher: PhantomData,
    };
    Ok(())
}

// Leaves the grant the cover of its keys that are in the span.
pub fn narrow<C: Cipher>(
    grant: &mut Grant<C>,
    span: Span,
    scratch: &mut [u64],
) -> Result<(), Refusal>
    ensures does { Narrows C.encrypted span (length scratch.old) grant.old result grant.new }
    ensures lawful { Continues C.encrypted grant.old (narrowed span (length scratch.old) result) grant.new }
    ensures covers { CoverIsOne }
    ensures nothing { NoRowsNoKeys }
    ensures wiped { scratch.new ≡ replicate (length scratch.old) 0 }
{
    let mut guard = Wiped { words: scratch };
    narrow_with(grant, span, &mut *guard.words)
}
