// A week at each kind: lines are sealed, and sums are opened by the owner and by a reader with two keys.
use crate::keys::{ends, key_word};
use crate::saying::say_open;
use group::{Count, Flags, Group, Moments, Printed};
use sealing::{Running, is_double};
use source::KeyList;
use std::array::from_fn;
use store::{FlatStore, Store};
use tree_store::{Plan, TreeStore};

// Seals the lines under the keys, and opens the whole, a part and nothing; the reader has the two keys at the ends. Keys and
// lines are arguments apart, since readers have keys alone.
fn play<G: Printed, S: Store<G>>(
    rt: &HostRuntime,
    store: &mut S,
    keys: &[G; 8],
    lines: &[G; 7],
) -> anyhow::Result<()> {
    let epoch = Running::new(KeyList { keys });
    for line in lines {
        let n = epoch.append(store, *line)?;
        println!(rt; "line {n} is accepted: {line}")?;
    }
    let epoch = epoch.close();
    for (a, b) in [(0, 7), (2, 5), (4, 4)] {
        say_open(rt, "the owner", store, epoch.keys(), a, b)?;
    }
    let reader = ends(keys);
    for b in [7, 5] {
        say_open(rt, "the reader", store, &reader, 0, b)?;
    }
    Ok(())
}

// The week in a flat store, and once more in a tree that keeps sums of two.
// The cells come from the caller, since no proof says that so many figures of an unknown size fit in memory.
fn both_stores<G: Printed>(
    rt: &HostRuntime,
    keys: &[G; 8],
    lines: &[G; 7],
    few: &mut [G; 7],
    more: &mut [G; 14],
) -> anyhow::Result<()> {
    println!(rt; "in a flat store")?;
    play(rt, &mut FlatStore::new(few), keys, lines)?;
    let plan = Plan::new(2, 7, 14)?;
    println!(rt; "in a tree store")?;
    play(rt, &mut TreeStore::new(plan, more), keys, lines)
}

// Crates in the cold store: deliveries and draws.
pub fn counts(rt: &HostRuntime) -> anyhow::Result<()> {
    println!(rt; "crates")?;
    let keys = [
        7304921846,
        15208834771920055173,
        288230376151,
        9007199254740993,
        6148914691,
        12297829382473034411,
        55340232221,
        4611686018427387905,
    ]
    .map(Count::from);
    let mut lines = [40, 6, 9, 12, 4, 11, 3].map(Count::from);
    for (day, line) in lines.iter_mut().enumerate() {
        // Days 0 and 3 bring a delivery, the others a draw.
        if day != 0 && day != 3 {
            *line = line.negate();
        }
    }
    let zero = Count::identity();
    both_stores(rt, &keys, &lines, &mut [zero; 7], &mut [zero; 14])?;
    compare(rt, &keys, &lines)
}

// Whether the reader could take two other weeks for this one.
fn compare(rt: &HostRuntime, keys: &[Count; 8], lines: &[Count; 7]) -> anyhow::Result<()> {
    let reader = ends(keys);
    let mut others = *lines;
    others.swap(1, 5);
    say_double(
        rt,
        "two draws exchanged",
        is_double(&reader, lines, &others),
    )?;
    others[2] = others[2].add(Count::from(1));
    say_double(
        rt,
        "one crate more besides",
        is_double(&reader, lines, &others),
    )
}

fn say_double(rt: &HostRuntime, what: &str, double: bool) -> anyhow::Result<()> {
    let can = if double { "cannot" } else { "can" };
    println!(rt; "the reader {can} tell this week from one with {what}")?;
    Ok(())
}

// Lamps along the dock: a line switches those whose bits it has.
pub fn flags(rt: &HostRuntime) -> anyhow::Result<()> {
    println!(rt; "lamps")?;
    let keys = from_fn(|i| Flags { bits: key_word(i) });
    let lines = [1, 3, 8, 2, 8, 4, 1].map(|bits| Flags { bits });
    let zero = Flags::identity();
    both_stores(rt, &keys, &lines, &mut [zero; 7], &mut [zero; 14])
}

// Parcels over the scale: how many, what they weigh, and the squares for the spread.
pub fn parcels(rt: &HostRuntime) -> anyhow::Result<()> {
    println!(rt; "tally")?;
    let keys = from_fn(|i| {
        let word = key_word(i);
        Moments::from_words([word, word ^ 7, word ^ 13])
    });
    let grams = [1200, 850, 4000, 4000, 640, 2147483647, 75];
    let lines = grams.try_map(Moments::parcel)?;
    let zero = Moments::identity();
    both_stores(rt, &keys, &lines, &mut [zero; 7], &mut [zero; 14])
}
