// AES-128 on columns held as words of 32 bits, row 0 in the high byte. Round keys are made on the way, since a key is
// mostly used for one block or two.
ghost use Rattle.std.specs.Prelude.{◌≡◌, ◌+◌, ◌<◌};
ghost use Rattle.cipher.specs.Aes.{aes, block_of_state, ciphered, column, diagonal, mix_column, mix_columns, rot_sub, round_key, rounds, shift_rows, state_of_block, sub_bytes, sub_column, xor_state};
ghost use Rattle.cipher.specs.AesWords.{column_of, next_key, state_of_words};

use crate::Block;
use crate::tables::{spread, sub};
use std::ops::BitXor;

// Four columns: the state, or a round key. Named as the definition names them; an array would say the same by index.
#[derive(Clone, Copy)]
struct Words {
    c0: u32,
    c1: u32,
    c2: u32,
    c3: u32,
}

// What is held between two rounds: the state, and the key of the round that follows.
#[derive(Clone, Copy)]
struct Running {
    state: Words,
    key: Words,
}

const CONSTANTS: [u8; 10] = [0x01, 0x02, 0x04, 0x08, 0x10, 0x20, 0x40, 0x80, 0x1b, 0x36];

// Halves by division and remainder, of which proofs have the laws; they compile to shifts.
impl From<Block> for Words {
    ghost from_gives = { λ b s. state_of_words s ≡ state_of_block b };

    fn from(b: Block) -> Words {
        Words {
            c0: (b.high / 0x1_0000_0000) as u32,
            c1: (b.high % 0x1_0000_0000) as u32,
            c2: (b.low / 0x1_0000_0000) as u32,
            c3: (b.low % 0x1_0000_0000) as u32,
        }
    }
}

impl From<Words> for Block {
    ghost from_gives = { λ s b. b ≡ block_of_state (state_of_words s) };

    #[tactic(auto, using(crate::proofs::Bridge::columns), unfolding(crate::specs::Aes::block_of_state))]
    fn from(s: Words) -> Block {
        Block {
            high: u64::from(s.c0) * 0x1_0000_0000 + u64::from(s.c1),
            low: u64::from(s.c2) * 0x1_0000_0000 + u64::from(s.c3),
        }
    }
}

impl BitXor for Words {
    type Output = Words;

    ghost bitxor_gives = { λ a b s. state_of_words s ≡ xor_state (state_of_words a) (state_of_words b) };

    #[tactic(auto, using(crate::proofs::Bridge::columns))]
    fn bitxor(self, rhs: Words) -> Words {
        Words {
            c0: self.c0 ^ rhs.c0,
            c1: self.c1 ^ rhs.c1,
            c2: self.c2 ^ rhs.c2,
            c3: self.c3 ^ rhs.c3,
        }
    }
}

impl Words {
    // The columns of a round, each `f` of the four columns that hold its bytes. With rows moved first, and `f` of one column, a block
    // took half as long again.
    fn each_column<F: Fn(u32, u32, u32, u32) -> u32>(self, f: F) -> Words
        requires { F.IsAlwaysCallable f }
        ensures c0 { F.post f self.c0 self.c1 self.c2 self.c3 result.c0 }
        ensures c1 { F.post f self.c1 self.c2 self.c3 self.c0 result.c1 }
        ensures c2 { F.post f self.c2 self.c3 self.c0 self.c1 result.c2 }
        ensures c3 { F.post f self.c3 self.c0 self.c1 self.c2 result.c3 }
    {
        let Words { c0, c1, c2, c3 } = self;
        Words {
            c0: f(c0, c1, c2, c3),
            c1: f(c1, c2, c3, c0),
            c2: f(c2, c3, c0, c1),
            c3: f(c3, c0, c1, c2),
        }
    }
}

// The bytes of one column after the rows have moved, from the four columns that hold them.
#[tactic(auto, unfolding(crate::specs::Aes::column, crate::specs::Aes::diagonal))]
fn diagonal(a: u32, b: u32, c: u32, d: u32) -> [u8; 4]
    ensures { column_of result ≡ diagonal (column a) (column b) (column c) (column d) }
{
    let [a, _, _, _] = a.to_be_bytes();
    let [_, b, _, _] = b.to_be_bytes();
    let [_, _, c, _] = c.to_be_bytes();
    let [_, _, _, d] = d.to_be_bytes();
    [a, b, c, d]
}

// One column of a round, from the four columns that hold its bytes. The spread table gives the part of each byte as if it
// stood in row 0; a byte of row r has its part r rows lower, so the word is rotated right by r bytes.
#[tactic(auto, using(crate::proofs::Mixing::mixes), unfolding(crate::specs::Aes::diagonal, crate::specs::Aes::sub_column))]
fn mixed_column(a: u32, b: u32, c: u32, d: u32) -> u32
    ensures { column result ≡ mix_column (diagonal (sub_column (column a)) (sub_column (column b)) (sub_column (column c)) (sub_column (column d))) }
{
    let [a, b, c, d] = diagonal(a, b, c, d);
    let front = spread(a) ^ spread(b).rotate_right(8);
    let back = spread(c) ^ spread(d).rotate_right(8);
    front ^ back.rotate_right(16)
}

// The same in the last round, which does not mix.
#[tactic(auto, using(crate::proofs::Bridge::columns), unfolding(crate::specs::Aes::sub_column, crate::specs::Aes::diagonal))]
fn last_column(a: u32, b: u32, c: u32, d: u32) -> u32
    ensures { column result ≡ diagonal (sub_column (column a)) (sub_column (column b)) (sub_column (column c)) (sub_column (column d)) }
{
    let [a, b, c, d] = diagonal(a, b, c, d);
    u32::from_be_bytes([sub(a), sub(b), sub(c), sub(d)])
}

fn mixed_round(s: Words) -> Words
    ensures { state_of_words result ≡ mix_columns (shift_rows (sub_bytes (state_of_words s))) }
{
    s.each_column(mixed_column)
}

fn last_round(s: Words) -> Words
    ensures { state_of_words result ≡ shift_rows (sub_bytes (state_of_words s)) }
{
    s.each_column(last_column)
}

// The last word of a round key, its bytes rotated one place left and put through the S-box, the first xored with the constant.
#[tactic(auto, using(crate::proofs::Bridge::columns), unfolding(crate::specs::Aes::column, crate::specs::Aes::rot_sub))]
fn rotated(u: u32, constant: u8) -> u32
    ensures { column result ≡ rot_sub constant (column u) }
{
    let [a, b, c, d] = u.to_be_bytes();
    u32::from_be_bytes([sub(b) ^ constant, sub(c), sub(d), sub(a)])
}

#[tactic(auto, using(crate::proofs::Bridge::columns))]
fn next_key(k: Words, constant: u8) -> Words
    ensures { state_of_words result ≡ next_key constant (state_of_words k) }
{
    let c0 = k.c0 ^ rotated(k.c3, constant);
    let c1 = k.c1 ^ c0;
    let c2 = k.c2 ^ c1;
    let c3 = k.c3 ^ c2;
    Words { c0, c1, c2, c3 }
}

// The first rounds, none of them the last, and the key of the round after them. Round key 0 is the key itself.
#[tactic(auto, using(crate::proofs::Schedule::rounds_in_turn), unfolding(crate::specs::Aes::rounds))]
fn first_rounds(key: Words, block: Words, count: usize) -> Running
    requires { count < 10 }
    ensures state { state_of_words result.state ≡ rounds (round_key (state_of_words key)) (xor_state (state_of_words block) (round_key (state_of_words key) 0)) count }
    ensures key { state_of_words result.key ≡ round_key (state_of_words key) (count + 1) }
{
    let mut current = key;
    let mut state = block ^ key;
    for constant in &CONSTANTS[..count] {
        current = next_key(current, *constant);
        state = mixed_round(state) ^ current;
    }
    Running {
        state,
        key: next_key(current, CONSTANTS[count]),
    }
}

fn all_rounds(key: Words, block: Words) -> Words
    ensures { state_of_words result ≡ ciphered (round_key (state_of_words key)) (state_of_words block) }
{
    let last = first_rounds(key, block, 9);
    last_round(last.state) ^ last.key
}

#[tactic(auto, unfolding(crate::specs::Aes::aes))]
pub fn encrypt(key: Block, block: Block) -> Block
    ensures { result ≡ aes key block }
{
    all_rounds(key.into(), block.into()).into()
}
