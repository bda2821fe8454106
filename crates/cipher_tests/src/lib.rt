// The published figures, run on the compiled code: through each cipher's own call, and through code that is generic in the
// cipher. They stand apart from the library, since a crate with tests is proved twice.
#![tactic(auto)]

ghost use Rattle.std.specs.Prelude.{◌≡◌};

use cipher::{Block, Cipher};

pub fn encrypt_by<C: Cipher>(key: Block, block: Block) -> Block
    ensures { result ≡ C.encrypted key block }
{
    C::encrypt(key, block)
}

#[cfg(test)]
mod tests {
    use super::*;
    use cipher::{Aes128, Speck128, figures_stand};

    const AES_KEY: Block = Block {
        high: 0x0001020304050607,
        low: 0x08090a0b0c0d0e0f,
    };

    const AES_BLOCK: Block = Block {
        high: 0x0011223344556677,
        low: 0x8899aabbccddeeff,
    };

    const AES_ANSWER: Block = Block {
        high: 0x69c4e0d86a7b0430,
        low: 0xd8cdb78070b4c55a,
    };

    const SPECK_KEY: Block = Block {
        high: 0x0f0e0d0c0b0a0908,
        low: 0x0706050403020100,
    };

    const SPECK_BLOCK: Block = Block {
        high: 0x6c61766975716520,
        low: 0x7469206564616d20,
    };

    const SPECK_ANSWER: Block = Block {
        high: 0xa65d985179783265,
        low: 0x7860fedf5c570d18,
    };

    #[test]
    fn aes_gives_the_published_block(rt: HostRuntime) {
        assert_eq!(rt; Aes128::encrypt(AES_KEY, AES_BLOCK), AES_ANSWER);
    }

    #[test]
    fn speck_gives_the_published_block(rt: HostRuntime) {
        assert_eq!(rt; Speck128::encrypt(SPECK_KEY, SPECK_BLOCK), SPECK_ANSWER);
    }

    #[test]
    fn generic_code_gives_both(rt: HostRuntime) {
        assert_eq!(rt; encrypt_by::<Aes128>(AES_KEY, AES_BLOCK), AES_ANSWER);
        assert_eq!(rt;
            encrypt_by::<Speck128>(SPECK_KEY, SPECK_BLOCK),
            SPECK_ANSWER
        );
    }

    #[test]
    fn the_table_has_four_rows(rt: HostRuntime) {
        assert_eq!(rt; figures_stand(), 4);
    }
}
