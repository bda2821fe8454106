// How high a key tree is.
ghost use Rattle.std.specs.Prelude.{◌≡◌, ◌≤◌, ◌^◌};
ghost use Rattle.refusal.specs.Judged.{judged};

use refusal::Refusal;

// A number of levels from 1 to 32, so that keys are numbered in 32 bits.
#[derive(Clone, Copy)]
pub struct Height {
    levels: u32,
    ghost some: { 1 ≤ levels },
    ghost fits: { levels ≤ 32 },
}

impl Height {
    // The height of the lowest tree, which has two keys, and of the highest.
    pub const LOWEST: Height = Height { levels: 1 };

    pub const HIGHEST: Height = Height { levels: 32 };

    ghost use Rattle.cover.specs.Heights.{height_rules, told};

    pub fn new(levels: u32) -> Result<Height, Refusal>
        ensures { told result ≡ judged (height_rules levels) levels }
    {
        if !(1..=32).contains(&levels) {
            return Err(Refusal::Height);
        }
        Ok(Height { levels })
    }

    pub fn levels(self) -> u32
        ensures { result ≡ self.levels }
    {
        self.levels
    }

    // How many keys a tree of this height has.
    pub fn key_count(self) -> u64
        ensures { result ≡ 2 ^ self.levels }
    {
        1 << self.levels
    }
}
