// The first line of the text.
ghost use Rattle.std.specs.Prelude.{◌≡◌, ℕ, ◌^◌, ◌<◌, List, ◌++◌, length, take, codes, MatchOption, MatchResult, ◌≢◌};
ghost use Rattle.refusal.specs.declared.Refusal.TheVariants.{Heading};
ghost use Rattle.grant_text.specs.Texts.{sizes, heading};
ghost use Rattle.grant_text.specs.Readings.{Headed};

use crate::columns::{take_column, write_column};
use refusal::Refusal;

// What a heading says: the height of the tree, and how many rows follow.
#[derive(Clone, Copy)]
pub(crate) struct Sizes {
    pub(crate) height: u32,
    pub(crate) count: usize,
}

// The height and the number of rows, by a heading in form and in range.
pub(crate) fn read_heading(text: &[u8]) -> Result<Sizes, Refusal>
    ensures { MatchResult result (λ s. Headed text.now s.height s.count) (λ e. (e ≡ Heading) × ((h k : ℕ) → Headed text.now h k → ⊥)) }
{
    sizes_in_form(text).ok_or(Refusal::Heading)
}

fn sizes_in_form(text: &[u8]) -> Option<Sizes>
    ensures { MatchOption result ((h k : ℕ) → Headed text.now h k → ⊥) (λ s. Headed text.now s.height s.count) }
{
    let rest = after_letters(text)?;
    let (height, count) = read_sizes(rest)?;
    // Not by `Height::new`, which would call it a wrong height; here it is a wrong heading.
    if !(1..=32).contains(&height) || !(1..=128).contains(&count) {
        return None;
    }
    // In range by the test above: a checked conversion would add a way out that is never taken.
    Some(Sizes {
        height: height as u32,
        count: count as usize,
    })
}

// What stands after the letters.
fn after_letters(text: &[u8]) -> Option<&[u8]>
    ensures { MatchOption result ((rest : List ℕ) → text.now ≢ codes "PASS" ++ rest) (λ rest. text.now ≡ codes "PASS" ++ rest.now) }
{
    match text {
        [b'P', b'A', b'S', b'S', rest @ ..] => Some(rest),
        _ => None,
    }
}

// The figures of a heading in form.
fn read_sizes(rest: &[u8]) -> Option<(u64, u64)>
    ensures { MatchOption result ((h k : ℕ) → h < 2 ^ 64 → k < 2 ^ 64 → take 8 rest.now ≢ sizes h k) (λ p. take 8 rest.now ≡ sizes p.0 p.1) }
{
    let (height, rest) = take_column(rest, 3)?;
    let (count, rest) = take_column(rest, 4)?;
    match rest {
        [b'\n', ..] => Some((height, count)),
        _ => None,
    }
}

// The bounds are those of what fits a column.
#[tactic(auto, using(crate::proofs::Widths::fitting))]
pub(crate) fn write_heading(out: &mut [u8], sizes: Sizes)
    requires long { length out.old ≡ 12 }
    requires low { sizes.height < 10 ^ 3 }
    requires few { sizes.count < 10 ^ 4 }
    ensures { out.new ≡ heading sizes.height sizes.count }
{
    let (letters, out) = out.split_at_mut(4);
    let (height, out) = out.split_at_mut(3);
    let (count, end) = out.split_at_mut(4);
    letters.copy_from_slice(b"PASS");
    write_column(height, u64::from(sizes.height));
    write_column(count, sizes.count as u64);
    end[0] = b'\n';
}
