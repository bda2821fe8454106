// Speck128/128: 32 rounds of sums, rotations and exclusive ors, the round keys made on the way.
ghost use Rattle.std.specs.Prelude.{◌≡◌};
ghost use Rattle.cipher.specs.Speck.{progress, rounded, speck, stepped};

use crate::Block;

// What is held between two rounds: the key words (l, k) and the block (x, y).
#[derive(Clone, Copy)]
struct Progress {
    keys: Block,
    text: Block,
}

// One round on the pair (x, y) with the round key k. The key schedule applies it too, to the key words.
fn round(pair: Block, k: u64) -> Block
    ensures { result ≡ rounded pair k }
{
    let high = pair.high.rotate_right(8).wrapping_add(pair.low) ^ k;
    let low = pair.low.rotate_left(3) ^ high;
    Block { high, low }
}

// Round i on the block, and the key words of the next one.
fn step(p: Progress, i: u64) -> Progress
    ensures { result ≡ stepped p i }
{
    Progress {
        keys: round(p.keys, i),
        text: round(p.text, p.keys.low),
    }
}

fn rounds(key: Block, block: Block, count: u64) -> Progress
    ensures { result ≡ progress key block count }
{
    let start = Progress {
        keys: key,
        text: block,
    };
    (0..count).fold(start, step)
}

pub fn encrypt(key: Block, block: Block) -> Block
    ensures { result ≡ speck key block }
{
    rounds(key, block, 32).text
}
