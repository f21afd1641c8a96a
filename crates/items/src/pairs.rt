// The parts of a pair of nodes.
ghost use Rattle.std.specs.Prelude.{◌≡◌, ◌-◌, ◌≤◌};
ghost use Rattle.derivations.specs.Ways.{by_factor, of_pair};

use crate::halves::halves;
use crate::shifts::{only_one, shift};
use derivations::Parts;
use trees::SuffixTree;
use trees::entries::entry;

// From node 0: the factor d begins.
fn by_factor(wholes: &[u16], counts: &[u16], y: usize, d: usize) -> Parts
    ensures { result ≡ by_factor wholes.now counts.now y d }
{
    if wholes.len() <= d {
        return Parts::Nothing;
    }
    if entry(counts, y) == 1 {
        if entry(wholes, d) == y {
            return Parts::One(0, d);
        }
        return Parts::Nothing;
    }
    Parts::Two(0, d, entry(wholes, d) + 1, y)
}

// The parts of the pair (x - 1, y) in a way.
pub(crate) fn of_pair(tree: &SuffixTree, counts: &[u16], x: usize, y: usize, d: usize) -> Parts
    requires { 1 ≤ x }
    ensures { result ≡ of_pair tree.now.count tree.now.letters.now tree.now.rests.now tree.now.children_r.now
        tree.now.children_s.now tree.now.wholes.now counts.now (x - 1) y d }
{
    if x == 1 {
        return by_factor(tree.wholes, counts, y, d);
    }
    match shift(tree, x - 1, y) {
        Parts::One(a, b) => only_one(d, a, b),
        _ => halves(tree, x, y, d),
    }
}
