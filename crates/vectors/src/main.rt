// Runs the test vectors of both ciphers and prints, for each cipher, how many lines agree, how many differ and how many are
// not in form. A line of the output changes with any of these numbers.
#![tactic(auto)]

use cipher::{Aes128, Cipher, Speck128};
use lines::{Tally, tally_of};
use std::fs;

mod hex;
mod lines;

fn run<C: Cipher>(rt: &HostRuntime, path: &str) -> anyhow::Result<Tally> {
    let text = fs::read(rt, path)?;
    Ok(tally_of::<C>(text.as_slice()))
}

fn report(rt: &HostRuntime, name: &str, tally: Tally) -> anyhow::Result<()> {
    println!(rt; "{name}: {tally}")?;
    Ok(())
}

fn main(rt: HostRuntime) -> anyhow::Result<()> {
    report(&rt, "AES-128", run::<Aes128>(&rt, "aes128.txt")?)?;
    report(&rt, "Speck128/128", run::<Speck128>(&rt, "speck128.txt")?)
}
