// Block ciphers with keys and blocks of 128 bits, each proved to be the function that its document defines.
#![tactic(auto)]

ghost use Rattle.std.specs.Prelude.{◌≡◌, length};
ghost use Rattle.cipher.specs.Aes.{aes};
ghost use Rattle.cipher.specs.Figures.{FiguresStand, figures};
ghost use Rattle.cipher.specs.Speck.{speck};
ghost use Rattle.cipher.specs.declared.Block.{Block};

mod aes;
mod speck;
mod tables;

// 128 bits, a block or a key, as two words. Laid out as in C, so that it can cross to a caller there.
#[repr(C)]
#[derive(Clone, Copy, PartialEq, Eq, Debug)]
pub struct Block {
    pub high: u64,
    pub low: u64,
}

// A cipher means a function of a key and a block that gives a block. It is a type without values, so a generic function or
// struct names the cipher that it uses by a type parameter alone.
pub trait Cipher {
    ghost encrypted: { Block → Block → Block };

    fn encrypt(key: Block, block: Block) -> Block
        ensures { result ≡ encrypted key block };
}

// AES-128, defined in FIPS 197.
pub enum Aes128 {}

impl Cipher for Aes128 {
    ghost encrypted = { aes };

    fn encrypt(key: Block, block: Block) -> Block {
        aes::encrypt(key, block)
    }
}

// Speck128/128: blocks and keys of 128 bits.
pub enum Speck128 {}

impl Cipher for Speck128 {
    ghost encrypted = { speck };

    fn encrypt(key: Block, block: Block) -> Block {
        speck::encrypt(key, block)
    }
}

// The published figures, as a theorem: in each row of the table the definitions give what was published. The answer is
// the number of rows.
pub fn figures_stand() -> usize
    ensures rows { result ≡ length figures }
    ensures stand { FiguresStand }
{
    4
}
