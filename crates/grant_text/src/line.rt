// The line of a row.
ghost use Rattle.std.specs.Prelude.{◌≡◌, ◌+◌, ◌*◌, ◌^◌, ◌<◌, ◌≤◌, length, MatchOption, ◌≢◌};
ghost use Rattle.grant.specs.declared.grant.row.Row.{Row as ARow};
ghost use Rattle.grant_text.specs.Texts.{row_line};
ghost use Rattle.grant_text.specs.Readings.{FitsLine, Shows};

use crate::columns::{take_column, write_column};
use cipher::Block;
use grant::Row;

// The row of a line in form.
fn read_line(s: &[u8]) -> Option<Row>
    ensures { MatchOption result ((x : ARow) → FitsLine x → s.now ≢ row_line x) (λ x. FitsLine x × (s.now ≡ row_line x)) }
{
    let (level, s) = take_column(s, 3)?;
    let (index, s) = take_column(s, 11)?;
    let (high, s) = take_column(s, 21)?;
    let (low, end) = take_column(s, 21)?;
    if end != b"\n".as_slice() {
        return None;
    }
    // Three digits fit 32 bits: a checked conversion would add a way out that is never taken.
    Some(Row {
        level: level as u32,
        index,
        seed: Block { high, low },
    })
}

// Row `i` of a text, where its line is in form: 12 bytes of heading, and 57 for each row.
pub(crate) fn row_at(text: &[u8], i: usize) -> Option<Row>
    requires { 69 + 57 * i ≤ length text.now }
    ensures { MatchOption result ((x : ARow) → Shows text.now i x → ⊥) (λ x. Shows text.now i x) }
{
    let (_, lines) = text.split_at(12 + 57 * i);
    read_line(&lines[..57])
}

// The bounds are those of what fits a column.
#[tactic(auto, using(crate::proofs::Widths::fitting))]
pub(crate) fn write_line(out: &mut [u8], row: Row)
    requires long { length out.old ≡ 57 }
    requires level { row.level < 10 ^ 3 }
    requires index { row.index < 10 ^ 11 }
    ensures is { out.new ≡ row_line row }
    ensures fits { FitsLine row }
{
    let (level, out) = out.split_at_mut(3);
    let (index, out) = out.split_at_mut(11);
    let (high, out) = out.split_at_mut(21);
    let (low, end) = out.split_at_mut(21);
    write_column(level, u64::from(row.level));
    write_column(index, row.index);
    write_column(high, row.seed.high);
    write_column(low, row.seed.low);
    end[0] = b'\n';
}
