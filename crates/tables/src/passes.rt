// The table is filled level by level: a pass at level k relaxes the rules of each pair whose entry is k, from the first place to the last.
// One pass a level is enough: a rule with two premises leads above k, and one with a single premise to a larger row, which is yet to come.
ghost use Rattle.std.specs.Prelude.{true, ◌≡◌, ◌+◌, ◌*◌, ◌-◌, ◌≤◌, ◌<◌, length};
ghost use Rattle.limits.specs.Limits.{most_factors};
ghost use Rattle.refusals.specs.Telling.{Tells};
ghost use Rattle.trees.specs.Tree.{most_of_entry};
ghost use Rattle.products.specs.Product.{measure};
ghost use Rattle.levels.specs.Levels.{Relaxed};
ghost use Rattle.tables.specs.Rules.{place, Rule_in};
ghost use Rattle.tables.specs.Nodes.{Linked_in, AllBelow};
ghost use Rattle.tables.specs.Relaxing.{Ready};
ghost use Rattle.tables.specs.Levelling.{Visited, Passes, Without, Sought, NextLevel, Starts, Full};

use crate::nodes::{Pair, next_pair, place_of};
use crate::relaxing::relax;
use crate::rules::relax_pair;
use trees::SuffixTree;
use words::Factors;

// The pair's rules are relaxed where its entry is the level.
fn visit(table: &mut [u16], tree: &SuffixTree, x: usize, y: usize, k: Factors)
    requires ready { Ready tree.now.count k.0 table.old }
    requires linked { Linked_in tree.now }
    requires x_lt_count { x < tree.now.count }
    requires y_lt_count { y < tree.now.count }
    ensures { Visited (Rule_in tree.now) k.0 (place tree.now.count x y) table.old table.new }
{
    let z = place_of(tree.count, x, y);
    if table[z] == k.0 {
        relax_pair(table, tree, x, y, k);
    }
}

// Whether there was no entry from `low` to `high` so far, and this is not one either. Where `low` is `high`, both comparisons become one.
fn absent_too(so_far: bool, entry: u16, low: Factors, high: Factors) -> bool
    ensures { Tells result ((so_far ≡ true) × (low.0 ≤ entry → entry ≤ high.0 → ⊥)) }
{
    !(low.0 <= entry && entry <= high.0) && so_far
}

// Whether no place has an entry from `low` to `high`. No early end, so that the loop runs on many entries at once.
pub(crate) fn absent(table: &[u16], low: Factors, high: Factors) -> bool
    ensures { Tells result (Without low.0 high.0 table.now 0 (length table.now)) }
{
    let mut none = true;
    for x in table {
        none = absent_too(none, *x, low, high);
    }
    none
}

// The first place from `from` on whose entry is k, or `last` where none before it has that entry.
fn find(table: &[u16], from: usize, last: usize, k: Factors) -> usize
    requires from_le_last { from ≤ last }
    requires last_in_bounds { last < length table.now }
    ensures { Sought k.0 table.now from last result }
{
    for p in from..last {
        if table[p] == k.0 {
            return p;
        }
    }
    last
}

// The first column from y on where the row's entry is k, or the last column. Most rows have no such entry, which `absent` tells sooner.
fn seek_in(row: &[u16], y: usize, k: Factors) -> usize
    requires { y < length row.now }
    ensures { Sought k.0 row.now y (length row.now - 1) result }
{
    let last = row.len() - 1;
    if y == 0 && absent(row, k, k) {
        return last;
    }
    find(row, y, last, k)
}

// The same in row x of the table.
pub(crate) fn seek(table: &[u16], count: usize, x: usize, y: usize, k: Factors) -> usize
    requires ready { Ready count k.0 table.now }
    requires x_lt_count { x < count }
    requires y_lt_count { y < count }
    ensures { Sought k.0 table.now (place count x y) (place count x (count - 1)) (place count x result) }
{
    let row = place_of(count, x, 0);
    let end = row + count;
    seek_in(&table[row..end], y, k)
}

// One pass at the level k. Where no entry lies above k it would lower none: so the last level costs nothing where each pair is led to. Visits of the
// places that `seek` passes over would change nothing.
fn pass(table: &mut [u16], tree: &SuffixTree, k: Factors)
    requires ready { Ready tree.now.count k.0 table.old }
    requires linked { Linked_in tree.now }
    requires le_count { 1 ≤ tree.now.count }
    ensures { Passes (Visited (Rule_in tree.now) k.0) (tree.now.count * tree.now.count) table.old table.new }
{
    let next = k.0 + 1;
    if absent(table, Factors(next), Factors(u16::MAX)) {
        return;
    }
    let mut pair = Pair { row: 0, column: 0 };
    while pair.row < tree.count {
        let x = pair.row;
        let y = seek(table, tree.count, x, pair.column, k);
        visit(table, tree, x, y, k);
        pair = next_pair(Pair { row: x, column: y }, tree.count);
    }
}

// The entry, where it lies above k; else `none`.
fn above(entry: u16, k: Factors, none: u16) -> u16
    ensures { (k.0 < entry → result ≡ entry) × (entry ≤ k.0 → result ≡ none) }
{
    if k.0 < entry { entry } else { none }
}

// The level after k: the least entry above it, or n + 1. Every turn does the same, so that the loop runs on many entries at once.
fn level_after(table: &[u16], k: Factors, n: Factors) -> Factors
    requires k_le_n { k.0 ≤ n.0 }
    requires n_le_most_factors { n.0 ≤ most_factors }
    ensures { NextLevel n.0 table.now k.0 result.0 }
{
    let none = n.0 + 1;
    let mut least = none;
    for x in table {
        least = least.min(above(*x, k, none));
    }
    Factors(least)
}

// Rule A: each generator leads from nothing, which is node 0, to its own node. Row 0 begins at the table's first place.
pub(crate) fn start(table: &mut [u16], tree: &SuffixTree)
    requires table_len { length table.old ≡ tree.now.count * tree.now.count }
    requires le_count { 1 ≤ tree.now.count }
    requires all_below { AllBelow tree.now.wholes.now (length tree.now.wholes.now) tree.now.count }
    ensures { Relaxed 1 (Starts tree.now.count tree.now.wholes.now) table.old table.new }
{
    for j in 0..tree.wholes.len() {
        relax(table, usize::from(tree.wholes[j]), Factors(1));
    }
}

// Fills the whole table, up to the bound n. An entry of n + 1 stands for no series.
pub(crate) fn fill_levels(table: &mut [u16], tree: &SuffixTree, n: Factors)
    requires table_len { length table.old ≡ tree.now.count * tree.now.count }
    requires le_count { 1 ≤ tree.now.count }
    requires count_le_most_of_entry { tree.now.count ≤ most_of_entry }
    requires n_le_most_factors { n.0 ≤ most_factors }
    requires linked { Linked_in tree.now }
    requires all_below { AllBelow tree.now.wholes.now (length tree.now.wholes.now) tree.now.count }
    ensures { Full tree.now.count tree.now.letters.now tree.now.rests.now tree.now.wholes.now measure n.0 table.new }
{
    table.fill(n.0 + 1);
    start(table, tree);
    let mut k = Factors(1);
    while k.0 <= n.0 {
        pass(table, tree, k);
        k = level_after(table, k, n);
    }
}
