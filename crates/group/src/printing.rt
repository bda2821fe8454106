// What a figure of any kind prints.
ghost use Rattle.std.specs.Prelude.{◌≡◌, ℕ, List, IfOk, Some, string_bytes};
ghost use Rattle.std.proofs.Common.{rules};
ghost use Rattle.group.specs.Figures.{count_text, flags_text, moments_text};

use crate::{Count, Flags, Group, Moments};
use std::alloc::{AllocError, Global};
use std::fmt::Display;

// A kind whose `Display` states the bytes of every figure. `Display` alone may leave them open.
pub trait Printed: Group + Display {
    ghost printed: { Self → List ℕ };

    // What `{}` prints is that text.
    ghost prints: { (x : Self) → Self.output x ≡ Some (printed x) };

    // The figure as text.
    final fn text(&self, heap: Global) -> Result<String, AllocError>
        ensures { IfOk result (λ s. string_bytes s ≡ printed self.now) }
    {
        self.to_string(heap)
    }
}

impl Printed for Count {
    ghost printed = { count_text };

    ghost prints = { Prim.search rules };
}

impl Printed for Flags {
    ghost printed = { flags_text };

    ghost prints = { Prim.search rules };
}

impl Printed for Moments {
    ghost printed = { moments_text };

    ghost prints = { Prim.search rules };
}
