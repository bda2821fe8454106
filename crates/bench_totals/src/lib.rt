// Totals over stores, again and again, for a benchmark to time from C.
#![tactic(auto)]

ghost use Rattle.std.specs.Prelude.{◌≡◌, ◌%◌, ◌^◌, length, take};
ghost use Rattle.refusal.specs.Judged.{judged};
ghost use Rattle.store.specs.Flat.{flat_places};
ghost use Rattle.tree_store.specs.Plans.{plan_rules};
ghost use Rattle.tree_clients.specs.Puts.{filled};
ghost use Rattle.bench_totals.specs.Rounds.{span_sum, rounds_sum, planned_sum};

use group::Count;
use refusal::Refusal;
use store::{FlatStore, Store};
use tree_store::{Plan, TreeStore};

// Puts the figures, one after another; those that find the store full are refused. `tree_clients` has the same for a tree, with
// more promised: what a tree's cells hold is no promise of every store.
fn put_all<S: Store<Count>>(store: &mut S, figures: &[Count])
    ensures leaves { S.Store.contents store.new ≡ filled (S.Store.contents store.old) figures.now }
    ensures keeps { S.Store.sound store.old → S.Store.sound store.new }
{
    for figure in figures {
        let _ = store.put(*figure);
    }
}

// The sum of the figures from number `from` on, or 0 where there are not so many: what is added up for C is a number.
fn span<S: Store<Count>>(store: &S, from: usize) -> u64
    ensures { S.Store.sound store.now → result % 2 ^ 64 ≡ span_sum (S.Store.contents store.now).entries from }
{
    store.total(from, store.len()).map_or(0, |sum| sum.value)
}

// The sums of the figures from 0, 1, .. 7 on, in turn, added up. They differ from round to round, so that a compiler cannot
// take one for the next.
fn rounds_of<S: Store<Count>>(store: &S, rounds: usize) -> u64
    ensures { S.Store.sound store.now → result ≡ rounds_sum (S.Store.contents store.now).entries rounds }
{
    let mut all: u64 = 0;
    for round in 0..rounds {
        all = all.wrapping_add(span(store, round % 8));
    }
    all
}

// On a flat store over the cells. There is a call for each store, since C names no type.
#[unsafe(no_mangle)]
pub extern "C" fn totals_flat(cells: &mut [Count], figures: &[Count], rounds: usize) -> u64
    ensures { result ≡ rounds_sum (take (flat_places (length cells.old)) figures.now) rounds }
{
    let mut store = FlatStore::new(cells);
    put_all(&mut store, figures);
    rounds_of(&store, rounds)
}

// On a tree store over the cells, with a place for each figure.
fn totals_planned(
    fan_out: usize,
    cells: &mut [Count],
    figures: &[Count],
    rounds: usize,
) -> Result<u64, Refusal>
    ensures { result ≡ judged (plan_rules fan_out (length figures.now) (length cells.old)) (rounds_sum figures.now rounds) }
{
    let plan = Plan::new(fan_out, figures.len(), cells.len())?;
    let mut store = TreeStore::new(plan, cells);
    put_all(&mut store, figures);
    Ok(rounds_of(&store, rounds))
}

// The same for C, which is told 0 where such a plan is refused.
#[unsafe(no_mangle)]
pub extern "C" fn totals_tree(
    fan_out: usize,
    cells: &mut [Count],
    figures: &[Count],
    rounds: usize,
) -> u64
    ensures { result ≡ planned_sum fan_out (length cells.old) figures.now rounds }
{
    totals_planned(fan_out, cells, figures, rounds).unwrap_or(0)
}
