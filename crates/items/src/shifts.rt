// Letters and children of nodes, and the shift of a pair: a pair that is the same element, and so has the same series.
ghost use Rattle.std.specs.Prelude.{◌≡◌, ◌≤◌};
ghost use Rattle.trees.specs.Tree.{at, most_of_entry};
ghost use Rattle.derivations.specs.Ways.{only, child_by, begins_s, alike, over, shift as shift_of};
ghost use Rattle.derivations.specs.declared.Parts.TheVariants.{One};

use derivations::Parts;
use trees::SuffixTree;
use trees::entries::entry;

// The byte of a node's first letter; 0 where the slice has no such place.
pub(crate) fn letter_of(letters: &[u8], p: usize) -> u8
    ensures { result ≡ at letters.now p }
{
    letters.get(p).copied().unwrap_or(0)
}

// The node with that letter in front of v's word; 0 where there is none.
pub(crate) fn child_by(tree: &SuffixTree, byte: u8, v: usize) -> usize
    ensures { (result ≡ child_by tree.now.children_r.now tree.now.children_s.now byte v) × (result ≤ most_of_entry) }
{
    if byte == b'R' {
        return entry(tree.children_r, v);
    }
    entry(tree.children_s, v)
}

// Does the word of p begin with S?
pub(crate) fn begins_s(letters: &[u8], p: usize) -> bool
    ensures { result ≡ begins_s letters.now p }
{
    p != 0 && letter_of(letters, p) == b'S'
}

// Do the words of p and y begin alike? Node p is not 0.
fn is_alike(letters: &[u8], p: usize, y: usize) -> bool
    ensures { result ≡ alike letters.now p y }
{
    y != 0 && letter_of(letters, y) == letter_of(letters, p)
}

// The first way, and no other.
pub(crate) fn only_one(d: usize, x: usize, y: usize) -> Parts
    ensures { result ≡ only d (One x y) }
{
    if d == 0 {
        return Parts::One(x, y);
    }
    Parts::Nothing
}

// The letters that p's word begins with are carried over to y: R, two S's as one, one S as two.
fn carried(tree: &SuffixTree, p: usize, y: usize) -> Parts
    ensures { result ≡ over tree.now.letters.now tree.now.rests.now tree.now.children_s.now
        (at tree.now.letters.now p) (at tree.now.rests.now p)
        (child_by tree.now.children_r.now tree.now.children_s.now (at tree.now.letters.now p) y) }
{
    let byte = letter_of(tree.letters, p);
    let a = entry(tree.rests, p);
    let b = child_by(tree, byte, y);
    if b == 0 {
        return Parts::Nothing;
    }
    if byte == b'R' {
        return Parts::One(a + 1, b);
    }
    if begins_s(tree.letters, a) {
        return Parts::One(entry(tree.rests, a) + 1, b);
    }
    let c = entry(tree.children_s, b);
    if c == 0 {
        return Parts::Nothing;
    }
    Parts::One(a + 1, c)
}

// The pair that is the same element as (p, y), where p is not 0; nothing where there is none.
pub(crate) fn shift(tree: &SuffixTree, p: usize, y: usize) -> Parts
    ensures { result ≡ shift_of tree.now.letters.now tree.now.rests.now tree.now.children_r.now
        tree.now.children_s.now p y }
{
    if is_alike(tree.letters, p, y) {
        return Parts::One(entry(tree.rests, p) + 1, entry(tree.rests, y));
    }
    carried(tree, p, y)
}
