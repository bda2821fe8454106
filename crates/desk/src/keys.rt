// Keys made up for the desk.
ghost use Rattle.std.specs.Prelude.{◌≡◌, ◌*◌, ◌%◌, ◌^◌, Some, slice_get};

use group::Group;
use source::KeyPair;

// A number for key i that differs from its neighbours' in many bits.
pub(crate) fn key_word(i: usize) -> u64
    ensures { result ≡ i * 11400714819323198485 % 2 ^ 64 }
{
    (i as u64).wrapping_mul(11400714819323198485)
}

// The two keys at the ends of a week.
pub(crate) fn ends<G: Group>(keys: &[G; 8]) -> KeyPair<G>
    ensures from { result.from ≡ 0 }
    ensures to { result.to ≡ 7 }
    ensures before { slice_get keys.now 0 ≡ Some result.before }
    ensures after { slice_get keys.now 7 ≡ Some result.after }
{
    KeyPair {
        from: 0,
        before: keys[0],
        to: 7,
        after: keys[7],
    }
}
