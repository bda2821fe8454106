// Each refusal that sealing and opening can meet, once, with its number and its sentence.
use crate::saying::say_answer;
use group::{Count, Group, Moments};
use sealing::{Running, open};
use source::{KeyList, KeyPair};
use store::FlatStore;

pub fn all(rt: &HostRuntime) -> anyhow::Result<()> {
    println!(rt; "refusals")?;
    say_answer(rt, "a parcel of 2147483648 g", Moments::parcel(2147483648))?;
    let keys = [10, 3, 20].map(Count::from);
    let line = Count::from(5);
    appends(rt, &keys, line)?;
    opens(rt, &keys, line)
}

fn appends(rt: &HostRuntime, keys: &[Count; 3], line: Count) -> anyhow::Result<()> {
    let mut cells = [Count::identity(); 1];
    let mut store = FlatStore::new(&mut cells);
    let none = Running::new(KeyList { keys: &keys[0..0] });
    say_answer(
        rt,
        "a line with no key before it",
        none.append(&mut store, line),
    )?;
    let one = Running::new(KeyList { keys: &keys[0..1] });
    say_answer(
        rt,
        "a line with no key after it",
        one.append(&mut store, line),
    )?;
    let all = Running::new(KeyList { keys });
    let first = all.append(&mut store, line);
    say_answer(rt, "a line with a place and both keys", first)?;
    let second = all.append(&mut store, line);
    say_answer(rt, "a second line in one cell", second)
}

fn opens(rt: &HostRuntime, keys: &[Count; 3], line: Count) -> anyhow::Result<()> {
    let mut cells = [Count::identity(); 2];
    let mut store = FlatStore::new(&mut cells);
    let epoch = Running::new(KeyList { keys });
    say_answer(rt, "line 0", epoch.append(&mut store, line))?;
    say_answer(rt, "line 1", epoch.append(&mut store, line))?;
    let reader = KeyPair {
        from: 0,
        before: keys[0],
        to: 2,
        after: keys[2],
    };
    let spans = [
        ("lines 2 up to 0", 2, 0),
        ("lines 0 up to 3", 0, 3),
        ("lines 1 up to 2 without key 1", 1, 2),
        ("lines 0 up to 1 without key 1", 0, 1),
        ("lines 0 up to 2 with both keys", 0, 2),
    ];
    for (what, a, b) in spans {
        say_answer(rt, what, open(&store, &reader, a, b))?;
    }
    Ok(())
}
