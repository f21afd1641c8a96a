// The search for the first of the least series: for the tree of a reduced list and a reduced target the table of pairs and the target's rows are filled,
// what stands at the end of the last row decides, and the witness is written where there is one.
#![tactic(auto)]

mod carrying;
mod fitting;

ghost use Rattle.search.specs.Search.{Searches};
ghost use Rattle.search.specs.Answering.{Tabulated, Answered};

use crate::carrying::carry;
use crate::fitting::has_room;
use derivations::Setting;
use trees::entries::entry;
use trees::{SuffixTree, Unfit};
use words::Factors;

// What stands at the end of the last row decides: the count of a least series, or n + 1. Where it is a count the rows are carried behind the table, from
// row 1 on, since row 0 is the table's first; and the choices are made where the rows were.
fn answer(
    target: &[u8],
    tree: &SuffixTree,
    n: Factors,
    first: &mut [u16],
    second: &mut [u16],
    witness: &mut [u8],
) -> Result<Option<Factors>, Unfit>
    requires { Tabulated tree.now.count tree.now.letters.now tree.now.rests.now tree.now.children_r.now tree.now.children_s.now
        tree.now.wholes.now target.now n.0
        (record { first = first.old; second = second.old; witness = witness.old }) }
    ensures { Answered tree.now.count tree.now.letters.now tree.now.rests.now tree.now.children_r.now tree.now.children_s.now
        tree.now.wholes.now target.now n.0 result
        (record { first = first.old; second = second.old; witness = witness.old })
        (record { first = first.new; second = second.new; witness = witness.new }) }
{
    let count = tree.count;
    if n.0 as usize + 1 <= entry(second, target.len() * count) {
        return Ok(None);
    }
    let end = (target.len() + 1) * count;
    carry(&second[count..end], first, count * count);
    let setting = Setting {
        tree: *tree,
        target,
        counts: first,
    };
    let least = witness::first_series(&setting, n, second, witness)?;
    Ok(Some(least))
}

// Looks for the first of the least series that make the target, among those of at most n factors: its count, or none. The counts are filled in the front of
// `first` and the choices are made in the front of `second`; the series' factors go to the front of `witness`. Where the inputs do not fit nothing changes.
pub fn least(
    target: &[u8],
    tree: &SuffixTree,
    n: Factors,
    first: &mut [u16],
    second: &mut [u16],
    witness: &mut [u8],
) -> Result<Option<Factors>, Unfit>
    ensures { Searches tree.now.count tree.now.letters.now tree.now.rests.now tree.now.children_r.now tree.now.children_s.now
        tree.now.wholes.now target.now n.0 result
        (record { first = first.old; second = second.old; witness = witness.old })
        (record { first = first.new; second = second.new; witness = witness.new }) }
{
    if !has_room(
        target.len(),
        tree.count,
        tree.wholes.len(),
        n,
        first.len(),
        second.len(),
        witness.len(),
    ) {
        return Err(Unfit);
    }
    tables::fill(tree, n, first)?;
    // A filled table fits, so the rows are filled.
    rows::fill(target, tree, n, first, second)?;
    answer(target, tree, n, first, second, witness)
}
