// The parts of a row of the target at a node.
ghost use Rattle.std.specs.Prelude.{◌≡◌, ◌+◌, ◌<◌, ◌^◌};
ghost use Rattle.derivations.specs.Ways.{row_item, next_row as next_row_of};

use crate::shifts::{child_by, letter_of, only_one};
use derivations::Parts;
use trees::SuffixTree;

// The first number of row i: row 0 is the pairs of node 0.
fn row_item(count: usize, i: usize) -> usize
    requires { count + i < 2 ^ 64 }
    ensures { result ≡ row_item count i }
{
    if i == 0 {
        return 1;
    }
    count + i
}

// The parts of row i + 1 at node q in a way.
pub(crate) fn next_row(tree: &SuffixTree, target: &[u8], i: usize, q: usize, d: usize) -> Parts
    requires { tree.now.count + i < 2 ^ 64 }
    ensures { result ≡ next_row_of tree.now.count tree.now.children_r.now tree.now.children_s.now target.now i q d }
{
    let byte = letter_of(target, i);
    let row = row_item(tree.count, i);
    let c = child_by(tree, byte, q);
    if c != 0 {
        return only_one(d, row, c);
    }
    if tree.count <= d {
        return Parts::Nothing;
    }
    let b = child_by(tree, byte, d);
    if b == 0 {
        return Parts::Nothing;
    }
    Parts::Two(row, b, d + 1, q)
}
