// Figures in fixed columns: decimal, at the right, blanks before.
ghost use Rattle.std.specs.Prelude.{◌≡◌, ℕ, ◌+◌, ◌-◌, ◌*◌, ◌^◌, ◌<◌, ◌≤◌, List, ◌++◌, length, drop, replicate, decimal, MatchOption, ◌≢◌, slice_index};
ghost use Rattle.grant_text.specs.Columns.{column};

use itoa::write_digits;

// Writes `n` over the whole of `out`.
pub(crate) fn write_column(out: &mut [u8], n: u64)
    requires { length (decimal n) ≤ length out.old }
    ensures { out.new ≡ column (length out.old) n }
{
    let width = out.len();
    let start = write_digits(n, out, width);
    out[..start].fill(b' ');
}

// The number that the first `width` bytes of `s` hold as a column, and what stands after them.
pub(crate) fn take_column(s: &[u8], width: usize) -> Option<(u64, &[u8])>
    ensures { MatchOption result ((n : ℕ) (rest : List ℕ) → n < 2 ^ 64 → length (decimal n) ≤ width → s.now ≢ column width n ++ rest) (λ p. (length (decimal p.0) ≤ width) × (s.now ≡ column width p.0 ++ p.1.now)) }
{
    let (front, rest) = s.split_at_checked(width)?;
    let n = read_column(front)?;
    Some((n, rest))
}

// The number that the whole of `s` holds as a column, if it is one of 64 bits.
fn read_column(s: &[u8]) -> Option<u64>
    ensures { MatchOption result ((n : ℕ) → n < 2 ^ 64 → s.now ≢ column (length s.now) n) (λ n. s.now ≡ column (length s.now) n) }
{
    read_decimal(&s[blanks(s)..])
}

// How many blanks `s` begins with.
fn blanks(s: &[u8]) -> usize
    ensures within { result ≤ length s.now }
    ensures blank { s.now ≡ replicate result 32 ++ drop result s.now }
    ensures stops { slice_index s.now result ≢ 32 }
{
    s.iter().take_while(|b| **b == b' ').count()
}

// The number whose digits are the whole of `s`, with no zero before them but a lone 0. The library's reader takes a sign and
// leading zeros.
fn read_decimal(s: &[u8]) -> Option<u64>
    ensures { MatchOption result ((n : ℕ) → n < 2 ^ 64 → s.now ≢ decimal n) (λ n. s.now ≡ decimal n) }
{
    if let [] | [b'0', _, ..] = s {
        return None;
    }
    // By a `for`: what the library's `try_fold` gives over a list is not known to the check.
    let mut n = 0;
    for b in s {
        n = push_digit(n, *b)?;
    }
    Some(n)
}

// `n` with the digit `b` after it, if `b` is a digit and the number fits.
fn push_digit(n: u64, b: u8) -> Option<u64>
    ensures { MatchOption result (48 ≤ b → b < 58 → 2 ^ 64 ≤ n * 10 + (b - 48)) (λ m. (48 ≤ b) × (b < 58) × (m ≡ n * 10 + (b - 48))) }
{
    let digit = char::from(b).to_digit(10)?;
    n.checked_mul(10)?.checked_add(u64::from(digit))
}
