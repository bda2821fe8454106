// What is said of an answer.
use group::Printed;
use refusal::Refusal;
use sealing::open;
use source::KeySource;
use store::Store;

// Opens lines a up to b with the reader's keys, and says what was answered.
// A refusal by `words`, which always gives the sentence; what `Display` states is of writes that succeed alone.
pub fn say_open<G: Printed, S: Store<G>, R: KeySource<G>>(
    rt: &HostRuntime,
    who: &str,
    store: &S,
    reader: &R,
    a: usize,
    b: usize,
) -> anyhow::Result<()> {
    match open(store, reader, a, b) {
        Ok(sum) => println!(rt; "{who} opens {a} up to {b}: {sum}")?,
        Err(e) => println!(rt;
            "{who} is refused {a} up to {b} ({}): {}",
            e.number(),
            e.words()
        )?,
    }
    Ok(())
}

// Says whether a call answered, or why it refused.
pub fn say_answer<T: Drop>(
    rt: &HostRuntime,
    what: &str,
    answer: Result<T, Refusal>,
) -> anyhow::Result<()> {
    match answer {
        Ok(_) => println!(rt; "{what}: answered")?,
        Err(e) => println!(rt; "{what}: refused ({}), {}", e.number(), e.words())?,
    }
    Ok(())
}
