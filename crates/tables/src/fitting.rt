// Whether the inputs fit: the lengths, then the numbers of nodes, then whether the children agree with the letters and rests. A linear test.
ghost use Rattle.std.specs.Prelude.{◌≤◌, ◌<◌, length};
ghost use Rattle.refusals.specs.Telling.{Tells};
ghost use Rattle.trees.specs.Tree.{Shape};
ghost use Rattle.tables.specs.Filling.{Fits};
ghost use Rattle.tables.specs.Nodes.{Room, AllBelow, RestsEarlier, Followed, ChildAgrees, RestAgrees, Agrees, Agree, Linked_in};

use trees::entries::entry;
use trees::{SuffixTree, entries};
use words::Factors;

// Whether each of the first `many` numbers is below the bound.
fn all_below(nodes: &[u16], many: usize, bound: usize) -> bool
    requires { many ≤ length nodes.now }
    ensures { Tells result (AllBelow nodes.now many bound) }
{
    for p in &nodes[..many] {
        if bound <= usize::from(*p) {
            return false;
        }
    }
    true
}

// Whether each node but the first is behind its rest.
fn rests_earlier(rests: &[u16], count: usize) -> bool
    requires le_count { 1 ≤ count }
    requires count_in_bounds { count ≤ length rests.now }
    ensures { Tells result (RestsEarlier rests.now count) }
{
    for p in 1..count {
        if p <= entry(rests, p) {
            return false;
        }
    }
    true
}

fn has_room(tree: &SuffixTree, n: Factors, table: usize) -> bool
    ensures { Tells result
        (Room tree.now.count (length tree.now.letters.now) (length tree.now.rests.now) (length tree.now.children_r.now) (length tree.now.children_s.now) n.0 table) }
{
    let count = tree.count;
    1 <= count
        && count <= entries::MOST
        && count <= tree.letters.len()
        && count <= tree.rests.len()
        && count <= tree.children_r.len()
        && count <= tree.children_s.len()
        && n.0 <= limits::BOUND
        && count * count <= table
}

// Whether all numbers of nodes can be followed.
fn has_shape(tree: &SuffixTree) -> bool
    requires le_count { 1 ≤ tree.now.count }
    requires count_in_bounds { tree.now.count ≤ length tree.now.letters.now }
    requires count_in_bounds_2 { tree.now.count ≤ length tree.now.rests.now }
    requires count_in_bounds_3 { tree.now.count ≤ length tree.now.children_r.now }
    requires count_in_bounds_4 { tree.now.count ≤ length tree.now.children_s.now }
    ensures { Tells result
        (Shape tree.now.count tree.now.letters.now tree.now.rests.now tree.now.children_r.now tree.now.children_s.now tree.now.wholes.now) }
{
    let count = tree.count;
    rests_earlier(tree.rests, count)
        && all_below(tree.children_r, count, count)
        && all_below(tree.children_s, count, count)
        && all_below(tree.wholes, tree.wholes.len(), count)
}

// Whether p's child has the letter and the rest p.
fn child_agrees(tree: &SuffixTree, letter: u8, children: &[u16], p: usize) -> bool
    requires p_lt_count { p < tree.now.count }
    requires followed { Followed tree.now.count tree.now.letters.now tree.now.rests.now children.now }
    ensures { Tells result (ChildAgrees tree.now.letters.now tree.now.rests.now letter children.now p) }
{
    let c = entry(children, p);
    c == 0 || tree.letters[c] == letter && entry(tree.rests, c) == p
}

// Whether p, where its word begins with the letter, is the child of its rest.
fn rest_agrees(tree: &SuffixTree, letter: u8, children: &[u16], p: usize) -> bool
    requires p_lt_count { p < tree.now.count }
    requires followed { Followed tree.now.count tree.now.letters.now tree.now.rests.now children.now }
    ensures { Tells result (RestAgrees tree.now.letters.now tree.now.rests.now letter children.now p) }
{
    p == 0 || tree.letters[p] != letter || entry(children, entry(tree.rests, p)) == p
}

fn agrees(tree: &SuffixTree, letter: u8, children: &[u16], p: usize) -> bool
    requires p_lt_count { p < tree.now.count }
    requires followed { Followed tree.now.count tree.now.letters.now tree.now.rests.now children.now }
    ensures { Tells result (Agrees tree.now.letters.now tree.now.rests.now letter children.now p) }
{
    child_agrees(tree, letter, children, p) && rest_agrees(tree, letter, children, p)
}

fn agree(tree: &SuffixTree, letter: u8, children: &[u16]) -> bool
    requires { Followed tree.now.count tree.now.letters.now tree.now.rests.now children.now }
    ensures { Tells result (Agree tree.now.letters.now tree.now.rests.now letter children.now tree.now.count) }
{
    for p in 0..tree.count {
        if !agrees(tree, letter, children, p) {
            return false;
        }
    }
    true
}

// Whether the children by both letters agree with the letters and rests. Those of every tree do.
fn linked(tree: &SuffixTree) -> bool
    requires followed { Followed tree.now.count tree.now.letters.now tree.now.rests.now tree.now.children_r.now }
    requires followed_2 { Followed tree.now.count tree.now.letters.now tree.now.rests.now tree.now.children_s.now }
    ensures { Tells result (Linked_in tree.now) }
{
    agree(tree, b'R', tree.children_r) && agree(tree, b'S', tree.children_s)
}

pub(crate) fn fits(tree: &SuffixTree, n: Factors, table: &[u16]) -> bool
    ensures { Tells result
        (Fits tree.now.count tree.now.letters.now tree.now.rests.now tree.now.children_r.now tree.now.children_s.now
        tree.now.wholes.now n.0 table.now) }
{
    has_room(tree, n, table.len()) && has_shape(tree) && linked(tree)
}
