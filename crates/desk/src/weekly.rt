// Two weeks of days, opened by the week: with a key a week, weeks can be opened and no single day.
use crate::keys::key_word;
use crate::saying::{say_answer, say_open};
use group::{Count, Group};
use layers::{Coarse, post};
use sealing::Running;
use source::KeyList;
use std::array::from_fn;
use store::FlatStore;

pub fn weeks(rt: &HostRuntime) -> anyhow::Result<()> {
    println!(rt; "weeks")?;
    let daily = from_fn(|i| Count::from(key_word(i)));
    let weekly = [71, 5003, 90].map(Count::from);
    play(rt, &daily, &weekly)
}

// Each line is the number of its day. An envelope is posted for the first day of each week, and one too many.
fn play(rt: &HostRuntime, daily: &[Count; 15], weekly: &[Count; 3]) -> anyhow::Result<()> {
    let mut cells = [Count::identity(); 14];
    let mut store = FlatStore::new(&mut cells);
    let epoch = Running::new(KeyList { keys: daily });
    for day in 1..15 {
        epoch.append(&mut store, Count::from(day))?;
    }
    let hiding = KeyList { keys: weekly };
    let mut paper = [Count::identity(); 3];
    let mut envelopes = FlatStore::new(&mut paper);
    for _ in 0..4 {
        let posted = post(7, &mut envelopes, epoch.keys(), &hiding);
        say_answer(rt, "an envelope", posted)?;
    }
    let reader = Coarse {
        step: 7,
        envelopes: &envelopes,
        other: hiding,
    };
    for (a, b) in [(0, 7), (7, 14), (0, 1), (6, 7)] {
        say_open(rt, "the weekly reader", &store, &reader, a, b)?;
    }
    Ok(())
}
