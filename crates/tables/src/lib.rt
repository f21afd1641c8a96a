// The table of pairs of states: for each pair the least number of factors that leads from the one to the other, or only whether some series does.
#![tactic(auto)]

mod closing;
mod fitting;
mod nodes;
mod passes;
mod relaxing;
mod rules;

ghost use Rattle.products.specs.Product.{measure};
ghost use Rattle.products.specs.State.{weightless};
ghost use Rattle.tables.specs.Filling.{Fills};

use crate::closing::close_pairs;
use crate::fitting::fits;
use crate::passes::fill_levels;
use trees::{SuffixTree, Unfit};
use words::Factors;

// Fills the first count * count entries of the table for a tree of `count` nodes, up to the bound n. A series that leads from state to state has one
// factor or more, so the diagonal is not 0. Where the inputs do not fit, or the children disagree with the letters and rests, nothing changes.
pub fn fill(tree: &SuffixTree, n: Factors, table: &mut [u16]) -> Result<(), Unfit>
    ensures { Fills measure tree.now.count tree.now.letters.now tree.now.rests.now tree.now.children_r.now tree.now.children_s.now
        tree.now.wholes.now n.0 table.old result table.new }
{
    if fits(tree, n, table) {
        fill_levels(&mut table[..tree.count * tree.count], tree, n);
        Ok(())
    } else {
        Err(Unfit)
    }
}

// The same with no bound: an entry is 0 where some series, of one factor or more and however long, leads from the one to the other, and 2 where none does.
// What does not fit is as above.
pub fn close(tree: &SuffixTree, table: &mut [u16]) -> Result<(), Unfit>
    ensures { Fills weightless tree.now.count tree.now.letters.now tree.now.rests.now tree.now.children_r.now tree.now.children_s.now
        tree.now.wholes.now 1 table.old result table.new }
{
    if fits(tree, Factors(1), table) {
        close_pairs(&mut table[..tree.count * tree.count], tree);
        Ok(())
    } else {
        Err(Unfit)
    }
}
