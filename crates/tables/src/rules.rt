// The rules in which a pair (x, y) is a premise, relaxed with k, the pair's entry. specs/Rules.antt has the rules.
ghost use Rattle.std.specs.Prelude.{◌≤◌, ◌<◌, length};
ghost use Rattle.levels.specs.Levels.{Relaxed, Using};
ghost use Rattle.levels.specs.Passes.{Upto};
ghost use Rattle.tables.specs.Rules.{place, Rule_in};
ghost use Rattle.tables.specs.Nodes.{RestsEarlier, LinkedBy, Linked_in};
ghost use Rattle.tables.specs.Relaxing.{
  Ready,
  RowTurn,
  ColumnTurn,
  UsesF,
  UsesR,
  UsesS,
  UsesE,
  TripleTurn,
  Triples,
};

use crate::nodes::{begins, child, place_of, rest_after};
use crate::relaxing::{lower, relax_at, relax_from};
use trees::SuffixTree;
use words::Factors;

// F with the pair first: the row of x from the row of y.
fn relax_row(table: &mut [u16], count: usize, x: usize, y: usize, k: Factors)
    requires ready { Ready count k.0 table.old }
    requires x_lt_count { x < count }
    requires y_lt_count { y < count }
    ensures { Relaxed k.0 (Upto (RowTurn count x y) count) table.old table.new }
{
    let to = place_of(count, x, 0);
    let from = place_of(count, y, 0);
    for j in 0..count {
        lower(table, from + j, to + j, k);
    }
}

fn relax_in_column(table: &mut [u16], count: usize, x: usize, y: usize, i: usize, k: Factors)
    requires ready { Ready count k.0 table.old }
    requires x_lt_count { x < count }
    requires y_lt_count { y < count }
    requires i_lt_count { i < count }
    ensures { Relaxed k.0 (ColumnTurn count x y i) table.old table.new }
{
    relax_from(table, place_of(count, i, x), place_of(count, i, y), k);
}

// F with the pair second: the column of y from the column of x. Two rows a turn: one is so little work that the loop costs as much.
fn relax_column(table: &mut [u16], count: usize, x: usize, y: usize, k: Factors)
    requires ready { Ready count k.0 table.old }
    requires x_lt_count { x < count }
    requires y_lt_count { y < count }
    ensures { Relaxed k.0 (Upto (ColumnTurn count x y) count) table.old table.new }
{
    let mut i = 0;
    while i + 1 < count {
        relax_in_column(table, count, x, y, i, k);
        relax_in_column(table, count, x, y, i + 1, k);
        i += 2;
    }
    if i < count {
        relax_in_column(table, count, x, y, i, k);
        return;
    }
}

// F lowers nothing where the pair is of one node twice.
fn relax_f(table: &mut [u16], count: usize, x: usize, y: usize, k: Factors)
    requires ready { Ready count k.0 table.old }
    requires x_lt_count { x < count }
    requires y_lt_count { y < count }
    ensures { Relaxed k.0 (UsesF count x y) table.old table.new }
{
    if x == y {
        return;
    }
    relax_row(table, count, x, y, k);
    relax_column(table, count, x, y, k);
}

// B and G for the letter R. Each leads to a pair of x's child.
fn relax_r(table: &mut [u16], tree: &SuffixTree, x: usize, y: usize, k: Factors)
    requires ready { Ready tree.now.count k.0 table.old }
    requires linked_by { LinkedBy tree.now.count tree.now.letters.now tree.now.rests.now 82 tree.now.children_r.now }
    requires x_lt_count { x < tree.now.count }
    requires y_lt_count { y < tree.now.count }
    ensures { Relaxed k.0 (UsesR tree.now.count tree.now.letters.now tree.now.rests.now x y) table.old table.new }
{
    let Some(a) = child(tree.children_r, x) else {
        return;
    };
    relax_at(table, tree.count, Some(a), rest_after(tree, b'R', y), k);
    relax_at(table, tree.count, Some(a), child(tree.children_r, y), k);
}

// C, D, and G for the letter S. Each leads to a pair of x's child, or of the child's child.
fn relax_s(table: &mut [u16], tree: &SuffixTree, x: usize, y: usize, k: Factors)
    requires ready { Ready tree.now.count k.0 table.old }
    requires linked_by { LinkedBy tree.now.count tree.now.letters.now tree.now.rests.now 83 tree.now.children_s.now }
    requires x_lt_count { x < tree.now.count }
    requires y_lt_count { y < tree.now.count }
    ensures { Relaxed k.0 (UsesS tree.now.count tree.now.letters.now tree.now.rests.now x y) table.old table.new }
{
    let Some(a) = child(tree.children_s, x) else {
        return;
    };
    if let Some(b) = rest_after(tree, b'S', y) {
        relax_at(table, tree.count, child(tree.children_s, a), Some(b), k);
        relax_at(table, tree.count, Some(a), rest_after(tree, b'S', b), k);
    }
    relax_at(table, tree.count, Some(a), child(tree.children_s, y), k);
}

// E at a node b that begins with S, whose rest is t: with the pair first, (a, t) from (v, b); with the pair second, (b, v) from (t, a).
// The rest is read without a test of the place, since this is the body of the loop that rule E is.
fn relax_triple(
    table: &mut [u16],
    count: usize,
    letters: &[u8],
    rests: &[u16],
    a: usize,
    v: usize,
    b: usize,
    k: Factors,
)
    requires ready { Ready count k.0 table.old }
    requires count_in_bounds { count ≤ length letters.now }
    requires count_in_bounds_2 { count ≤ length rests.now }
    requires rests_earlier { RestsEarlier rests.now count }
    requires a_lt_count { a < count }
    requires v_lt_count { v < count }
    requires b_lt_count { b < count }
    ensures { Relaxed k.0 (TripleTurn count letters.now rests.now a v b) table.old table.new }
{
    if begins(letters, b'S', b) {
        let t = usize::from(rests[b]);
        relax_from(table, place_of(count, v, b), place_of(count, a, t), k);
        relax_from(table, place_of(count, t, a), place_of(count, b, v), k);
    }
}

// E for a pair of which the first with S in front is a, and the second without its S is v. One loop for both places of the pair in the rule:
// they ask the same of each node. The tree comes in its parts, for speed: through a reference each turn would read anew where they lie.
fn relax_triples(
    table: &mut [u16],
    count: usize,
    letters: &[u8],
    rests: &[u16],
    a: usize,
    v: usize,
    k: Factors,
)
    requires ready { Ready count k.0 table.old }
    requires count_in_bounds { count ≤ length letters.now }
    requires count_in_bounds_2 { count ≤ length rests.now }
    requires rests_earlier { RestsEarlier rests.now count }
    requires a_lt_count { a < count }
    requires v_lt_count { v < count }
    ensures { Relaxed k.0 (Triples count letters.now rests.now a v) table.old table.new }
{
    for b in 0..count {
        relax_triple(table, count, letters, rests, a, v, b, k);
    }
}

// E: the three S's of three factors.
fn relax_e(table: &mut [u16], tree: &SuffixTree, x: usize, y: usize, k: Factors)
    requires ready { Ready tree.now.count k.0 table.old }
    requires linked_by { LinkedBy tree.now.count tree.now.letters.now tree.now.rests.now 83 tree.now.children_s.now }
    requires x_lt_count { x < tree.now.count }
    requires y_lt_count { y < tree.now.count }
    ensures { Relaxed k.0 (UsesE tree.now.count tree.now.letters.now tree.now.rests.now x y) table.old table.new }
{
    if let Some(a) = child(tree.children_s, x) {
        if let Some(v) = rest_after(tree, b'S', y) {
            relax_triples(table, tree.count, tree.letters, tree.rests, a, v, k);
        }
    }
}

// All rules in which the pair is a premise.
pub(crate) fn relax_pair(table: &mut [u16], tree: &SuffixTree, x: usize, y: usize, k: Factors)
    requires ready { Ready tree.now.count k.0 table.old }
    requires linked { Linked_in tree.now }
    requires x_lt_count { x < tree.now.count }
    requires y_lt_count { y < tree.now.count }
    ensures { Relaxed k.0 (Using (Rule_in tree.now) (place tree.now.count x y)) table.old table.new }
{
    relax_f(table, tree.count, x, y, k);
    relax_r(table, tree, x, y, k);
    relax_s(table, tree, x, y, k);
    relax_e(table, tree, x, y, k);
}
