// The rows of a target over the table of pairs: what the target's letters make of the table, letter by letter.
#![tactic(auto)]

mod filling;
mod fitting;

ghost use Rattle.rows.specs.Rows.{Fills};

use crate::filling::fill_rows;
use crate::fitting::fits;
use trees::{SuffixTree, Unfit};
use words::Factors;

// Fills the rows of the target, one for each of its letters and one before them, each with an entry for each of `count` nodes: from a table of pairs
// that is filled up to the bound n, and the children of the tree's nodes. Where the inputs do not fit nothing changes.
pub fn fill(
    target: &[u8],
    tree: &SuffixTree,
    n: Factors,
    table: &[u16],
    rows: &mut [u16],
) -> Result<(), Unfit>
    ensures { Fills tree.now.count n.0 tree.now.children_r.now tree.now.children_s.now target.now table.now rows.old result rows.new }
{
    if fits(target, tree, n, table, rows) {
        fill_rows(target, tree, n, table, rows);
        Ok(())
    } else {
        Err(Unfit)
    }
}
