// Blocks written in hex digits, the high digit first.
ghost use Rattle.std.specs.Prelude.{◌≡◌, Some};
ghost use Rattle.vectors.specs.Hex.{block_of, digit_of, number_from};

use cipher::Block;

// Small letters only, where the library's reader takes capitals too.
fn digit(b: u8) -> Option<u8>
    ensures { result ≡ digit_of b }
{
    match b {
        b'0'..=b'9' => Some(b - b'0'),
        b'a'..=b'f' => Some(b - b'a' + 10),
        _ => None,
    }
}

// The number that the digits write, modulo 2^64. The library's reader wants text, and takes a sign and capitals.
#[tactic(auto, using(crate::proofs::Digits::one_digit))]
fn read_word(text: &[u8]) -> Option<u64>
    ensures { result ≡ number_from (Some 0) text.now }
{
    let mut n: u64 = 0;
    for b in text {
        let d = digit(*b)?;
        n = n.wrapping_mul(16).wrapping_add(u64::from(d));
    }
    Some(n)
}

// The block that 32 digits write; any other text writes none.
#[tactic(auto, unfolding(crate::specs::Hex::block_of))]
pub fn read_block(text: &[u8]) -> Option<Block>
    ensures { result ≡ block_of text.now }
{
    if text.len() != 32 {
        return None;
    }
    // Two halves of sixteen digits.
    Some(Block {
        high: read_word(&text[..16])?,
        low: read_word(&text[16..])?,
    })
}
