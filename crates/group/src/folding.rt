// The sum of a stretch of cells, for every kind of figure.
ghost use Rattle.std.specs.Prelude.{◌≡◌};
ghost use Rattle.group.specs.Kind.{sum};

use crate::Group;

// The figures of the slice, added up. No figures add up to zero. By a `for`: of the library's `fold` over a trait's sum the check
// proves nothing.
pub fn fold<G: Group>(figures: &[G]) -> G
    ensures { G.kind.value result ≡ sum G.kind figures.now }
{
    let mut total = G::identity();
    for figure in figures {
        total = total.add(*figure);
    }
    total
}
