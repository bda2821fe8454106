// A panel's grant: issued from a key tree for the two keys at the ends of a week, and narrowed until it opens nothing.
use crate::saying::{say_answer, say_open};
use cipher::{Aes128, Block, Cipher, Speck128};
use cover::Span;
use grant::{Grant, KeyTree, issue, narrow};
use group::{Count, Group, Moments, Printed};
use sealing::Running;
use store::FlatStore;

// Seals seven equal lines with the keys of a tree under the cipher, and opens them through a grant.
// The cells come from the caller, since no proof says that seven figures of an unknown size fit in memory.
fn panel<G: Printed, C: Cipher>(
    rt: &HostRuntime,
    line: G,
    cells: &mut [G; 7],
) -> anyhow::Result<()> {
    let root = Block {
        high: 0x0f1571c947d9e859,
        low: 0x0cb7add6af7f6798,
    };
    let mut store = FlatStore::new(cells);
    let epoch = Running::new(KeyTree::<C>::new(5, root)?);
    for _ in 0..7 {
        epoch.append(&mut store, line)?;
    }
    let mut scratch = [0u64; 66];
    let mut grant = Grant::<C>::first();
    let ends = [Span { from: 0, to: 1 }, Span { from: 7, to: 8 }];
    let issued = issue(epoch.keys(), &ends, &mut scratch, &mut grant);
    say_answer(rt, "a grant of keys 0 and 7", issued)?;
    say_open(rt, "the panel", &store, &grant, 0, 7)?;
    say_open(rt, "the panel", &store, &grant, 0, 3)?;
    let first = narrow(&mut grant, Span { from: 0, to: 4 }, &mut scratch);
    say_answer(rt, "narrowed to keys 0 to 3", first)?;
    say_open(rt, "the panel", &store, &grant, 0, 7)?;
    let none = narrow(&mut grant, Span { from: 2, to: 4 }, &mut scratch);
    say_answer(rt, "narrowed to keys 2 and 3", none)
}

pub fn panels(rt: &HostRuntime) -> anyhow::Result<()> {
    println!(rt; "grants, AES and crates")?;
    let line = Count::from(6);
    panel::<Count, Aes128>(rt, line, &mut [Count::identity(); 7])?;
    println!(rt; "grants, Speck and a tally")?;
    let parcel = Moments::parcel(1250)?;
    panel::<Moments, Speck128>(rt, parcel, &mut [Moments::identity(); 7])
}
