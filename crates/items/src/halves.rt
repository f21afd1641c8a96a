// The two halves of a pair that has no shift: over a node that its first letter can stand before, or its three S's from three places.
ghost use Rattle.std.specs.Prelude.{◌≡◌, ◌-◌, ◌≤◌, ◌<◌};
ghost use Rattle.derivations.specs.Ways.{past as past_of, triple as triple_of, halves as halves_of};

use crate::shifts::{begins_s, child_by, letter_of};
use derivations::Parts;
use trees::SuffixTree;
use trees::entries::entry;

// Over the node v. The pair is (x - 1, y).
fn past(tree: &SuffixTree, x: usize, y: usize, v: usize) -> Parts
    requires { (1 ≤ x) × (v < tree.now.count) }
    ensures { result ≡ past_of tree.now.letters.now tree.now.children_r.now tree.now.children_s.now (x - 1) y v }
{
    if child_by(tree, letter_of(tree.letters, x - 1), v) == 0 {
        return Parts::Nothing;
    }
    Parts::Two(x, v, v + 1, y)
}

// The three S's of p, v and y's child.
fn triple(tree: &SuffixTree, p: usize, y: usize, v: usize) -> Parts
    ensures { result ≡ triple_of tree.now.letters.now tree.now.rests.now tree.now.children_s.now p y v }
{
    if letter_of(tree.letters, p) != b'S' {
        return Parts::Nothing;
    }
    let a = entry(tree.rests, p);
    if begins_s(tree.letters, a) || !begins_s(tree.letters, v) {
        return Parts::Nothing;
    }
    let b = entry(tree.children_s, y);
    if b == 0 {
        return Parts::Nothing;
    }
    Parts::Two(a + 1, v, entry(tree.rests, v) + 1, b)
}

// The halves of the pair (x - 1, y) in a way.
pub(crate) fn halves(tree: &SuffixTree, x: usize, y: usize, d: usize) -> Parts
    requires { 1 ≤ x }
    ensures { result ≡ halves_of tree.now.letters.now tree.now.rests.now tree.now.children_r.now
        tree.now.children_s.now tree.now.count (x - 1) y d }
{
    if d < tree.count {
        return past(tree, x, y, d);
    }
    if d - tree.count < tree.count {
        return triple(tree, x - 1, y, d - tree.count);
    }
    Parts::Nothing
}
