// The rows of a target: row i has, for each node q, the least number of factors that make the target's first i letters and then q's word,
// or n + 1. Each row is made of the one before it and the finished table.
ghost use Rattle.std.specs.Prelude.{◌≡◌, ℕ, ◌+◌, ◌≤◌, ◌<◌, eqb, length};
ghost use Rattle.refusals.specs.Telling.{pick};
ghost use Rattle.limits.specs.Limits.{most_factors};
ghost use Rattle.trees.specs.Tree.{at};
ghost use Rattle.trees.specs.Bounds.{AtMost};
ghost use Rattle.tables.specs.Rules.{place};
ghost use Rattle.rows.specs.Rows.{Fits, Filled};
ghost use Rattle.rows.specs.Rounds.{Rewritten, Lowered, Round, read_at, RoundFits, RowFits, NextRow};

use trees::SuffixTree;
use words::Factors;

// The row's entry at v's child, or n + 1 where v has none.
fn read_entry(row: &[u16], children: &[u16], n: Factors, v: usize) -> u16
    requires n_le_most_factors { n.0 ≤ most_factors }
    requires v_in_bounds { v < length children.now }
    requires v_in_bounds_2 { at children.now v < length row.now }
    ensures { result ≡ read_at n.0 children.now (at row.now) v }
{
    let child = children[v];
    if child == 0 {
        return n.0 + 1;
    }
    row[usize::from(child)]
}

// Reads a letter: what the next row begins with, at each node.
fn read_row(row: &[u16], children: &[u16], n: Factors, first: &mut [u16])
    requires n_le_most_factors { n.0 ≤ most_factors }
    requires row_in_bounds { length row.now ≤ length children.now }
    requires row_in_bounds_2 { length row.now ≤ length first.old }
    requires by_index { (p : ℕ) → p < length row.now → at children.now p < length row.now }
    ensures { Rewritten (read_at n.0 children.now (at row.now)) first.old first.new (length row.now) }
{
    for v in 0..row.len() {
        first[v] = read_entry(row, children, n, v);
    }
}

// Lowers each entry of the row to k more than the one that stands there in `from`. The stores are not under the test: so the loop becomes
// vector code.
fn lower_row(row: &mut [u16], k: u16, from: &[u16])
    requires k_bound { k ≤ most_factors + 1 }
    requires row_in_bounds { length row.old ≤ length from.now }
    requires at_most { AtMost (most_factors + 1) from.now (length row.old) }
    ensures { Lowered (λ q. k + at from.now q) row.old row.new }
{
    for (q, x) in row.iter_mut().enumerate() {
        *x = (*x).min(k + from[q]);
    }
}

// Rule F from v: what is read at v, and the table's entry from there. Where nothing is read at v no sum is below n + 1.
fn lower_from(first: &[u16], n: Factors, v: usize, table: &[u16], row: &mut [u16])
    requires round_fits { RoundFits n.0 first.now table.now (length row.old) }
    requires v_in_bounds { v < length row.old }
    requires at_most { AtMost (n.0 + 1) row.old (length row.old) }
    ensures { Lowered (λ q. at first.now v + at table.now (place (length row.old) v q)) row.old row.new }
{
    let k = first[v];
    if n.0 < k {
        return;
    }
    let start = v * row.len();
    let end = start + row.len();
    lower_row(row, k, &table[start..end]);
}

// One round of rule F over what is read.
fn round(first: &[u16], n: Factors, table: &[u16], row: &mut [u16])
    requires { RoundFits n.0 first.now table.now (length row.old) }
    ensures { Round first.now table.now (length row.old) row.new }
{
    row.copy_from_slice(&first[..row.len()]);
    for v in 0..row.len() {
        lower_from(first, n, v, table, row);
    }
}

// Makes row i + 1 of row i, with each node's child by the letter that is read. What is read goes into `first`, which is lent so that it is
// made once for all rows.
fn next_row(
    children: &[u16],
    count: usize,
    n: Factors,
    table: &[u16],
    rows: &mut [u16],
    i: usize,
    first: &mut [u16],
)
    requires row_fits { RowFits count n.0 children.now table.now i rows.old }
    requires count_in_bounds { count ≤ length first.old }
    ensures next_row { NextRow count n.0 children.now table.now i rows.old rows.new }
    ensures rewritten { Rewritten (read_at n.0 children.now (λ p. at rows.old (place count i p))) first.old first.new count }
{
    let start = i * count;
    let middle = start + count;
    let end = middle + count;
    read_row(&rows[start..middle], children, n, first);
    round(first, n, table, &mut rows[middle..end]);
}

// Makes row i + 1 by letter i of the target: `b'R'` is R, and any other byte is taken for S.
fn read_letter(
    letter: u8,
    tree: &SuffixTree,
    n: Factors,
    table: &[u16],
    rows: &mut [u16],
    i: usize,
    first: &mut [u16],
)
    requires row_fits { RowFits tree.now.count n.0 tree.now.children_r.now table.now i rows.old }
    requires row_fits_2 { RowFits tree.now.count n.0 tree.now.children_s.now table.now i rows.old }
    requires count_in_bounds { tree.now.count ≤ length first.old }
    ensures next_row { NextRow tree.now.count n.0 (pick (eqb letter 82) tree.now.children_r.now tree.now.children_s.now) table.now i rows.old rows.new }
    ensures rewritten { Rewritten (read_at n.0 (pick (eqb letter 82) tree.now.children_r.now tree.now.children_s.now)
        (λ p. at rows.old (place tree.now.count i p))) first.old first.new tree.now.count }
{
    if letter == b'R' {
        next_row(tree.children_r, tree.count, n, table, rows, i, first);
    } else {
        next_row(tree.children_s, tree.count, n, table, rows, i, first);
    }
}

// Copies the first `count` entries. By place: `copy_from_slice` would have the archive for C ask for `memmove`.
fn copy_row(from: &[u16], count: usize, to: &mut [u16])
    requires count_in_bounds { count ≤ length from.now }
    requires count_in_bounds_2 { count ≤ length to.old }
    ensures { Rewritten (at from.now) to.old to.new count }
{
    for q in 0..count {
        to[q] = from[q];
    }
}

// Fills the rows of the target, from the table's row of the empty word on.
pub(crate) fn fill_rows(
    target: &[u8],
    tree: &SuffixTree,
    n: Factors,
    table: &[u16],
    rows: &mut [u16],
)
    requires { Fits tree.now.count n.0 tree.now.children_r.now tree.now.children_s.now target.now table.now rows.old }
    ensures { Filled tree.now.count n.0 tree.now.children_r.now tree.now.children_s.now target.now table.now rows.old rows.new }
{
    copy_row(table, tree.count, rows);
    let mut first = [0u16; limits::STATES_ROOM];
    for (i, letter) in target.iter().enumerate() {
        read_letter(*letter, tree, n, table, rows, i, &mut first);
    }
}
