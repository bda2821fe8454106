// Where ciphertexts go.
#![tactic(auto)]

ghost use Rattle.std.specs.Borrow.{GName};
ghost use Rattle.std.specs.Prelude.{◌≡◌, ◌≤◌, false, List, length, is_ok, Ok};
ghost use Rattle.refusal.specs.Judged.{judged, first, refusal, left_by};
ghost use Rattle.group.specs.Kind.{sum};
ghost use Rattle.store.specs.Contents.{Contents, nth, push, between, put_rules, span_rules, total_rules};

mod flat;

pub use flat::FlatStore;
use group::Group;
use refusal::Refusal;

// The most figures that any store may hold.
pub const MAX_CAPACITY: usize = 1048576;

// A list of figures that grows at its end, up to a capacity that never changes.
pub trait Store<G: Group> {
    // What it holds. Laws take the members of a store one by one, since a clause cannot speak of a trait.
    ghost contents: { Self → Contents G };

    // The sums that the store keeps besides its figures are right. Every new store is sound. It is a member, and no fact of a
    // store's type: figures may count as values of any type, and a type keeps a fact only where it has at most one proof.
    ghost sound: { Self → Type 0 };

    // All the cells that were lent to the store, by whom, and what they hold once one more figure is put.
    ghost cells: { Self → List G };

    ghost lender: { Self → GName };

    ghost written: { Self → G → List G };

    fn len(&self) -> usize
        ensures is { result ≡ length (contents self.now).entries }
        ensures within { result ≤ (contents self.now).capacity };

    fn capacity(&self) -> usize
        ensures is { result ≡ (contents self.now).capacity }
        ensures limit { result ≤ 1048576 };

    // Adds the figure at the end.
    fn put(&mut self, figure: G) -> Result<(), Refusal>
        ensures answers { result ≡ judged (put_rules (contents self.old)) tt }
        ensures leaves { contents self.new ≡ left_by result (contents self.old) (push (contents self.old) figure) }
        ensures spares { is_ok result ≡ false → self.new ≡ self.old }
        ensures keeps { sound self.old → sound self.new }
        ensures writes { cells self.new ≡ left_by result (cells self.old) (written self.old figure) }
        ensures place { lender self.new ≡ lender self.old };

    // Figure i, where there is one.
    fn get(&self, i: usize) -> Option<G>
        ensures { result ≡ nth (contents self.now).entries i };

    // The sum of figures a to b - 1. Two numbers and no `Range`: one that runs backward is empty, and here it is refused.
    fn total(&self, a: usize, b: usize) -> Result<G, Refusal>
        ensures refuses { refusal result ≡ first (total_rules (contents self.now) a b) }
        ensures figure { sound self.now → (x : G) → result ≡ Ok x → G.Group.kind.value x ≡ sum G.Group.kind (between a b (contents self.now).entries) };
}

// Whether a to b - 1 are numbers of figures, of as many as there are.
pub fn check_span(len: usize, a: usize, b: usize) -> Result<(), Refusal>
    ensures { result ≡ judged (span_rules len a b) tt }
{
    if a > b {
        return Err(Refusal::Reversed);
    }
    if b > len {
        return Err(Refusal::Beyond);
    }
    Ok(())
}
