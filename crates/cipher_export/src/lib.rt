// The ciphers for callers in C, a call for each, since a caller there cannot name a cipher by a type. `Block` crosses by
// value, as two words of 64 bits.
#![tactic(auto)]

ghost use Rattle.std.specs.Prelude.{◌≡◌};
ghost use Rattle.cipher.specs.Aes.{aes};
ghost use Rattle.cipher.specs.Speck.{speck};

use cipher::{Aes128, Block, Cipher, Speck128};

#[unsafe(no_mangle)]
pub extern "C" fn cipher_aes128_encrypt(key: Block, block: Block) -> Block
    ensures { result ≡ aes key block }
{
    Aes128::encrypt(key, block)
}

#[unsafe(no_mangle)]
pub extern "C" fn cipher_speck128_encrypt(key: Block, block: Block) -> Block
    ensures { result ≡ speck key block }
{
    Speck128::encrypt(key, block)
}
