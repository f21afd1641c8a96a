// The table of yes and no: which pairs are led to at all, by however many factors. An entry is 2 while nothing is known of its pair, 1 once the pair is led to
// and its rules are yet to be used, and 0 when they were: so each pair's rules are used once. Nothing is counted.
ghost use Rattle.std.specs.Prelude.{◌≡◌, ℕ, ◌*◌, ◌≤◌, ◌<◌, length};
ghost use Rattle.refusals.specs.Telling.{Tells};
ghost use Rattle.products.specs.State.{weightless};
ghost use Rattle.trees.specs.Tree.{most_of_entry};
ghost use Rattle.levels.specs.Levels.{entry};
ghost use Rattle.tables.specs.Rules.{place, Rule_in};
ghost use Rattle.tables.specs.Nodes.{Linked_in, AllBelow};
ghost use Rattle.tables.specs.Relaxing.{Ready};
ghost use Rattle.tables.specs.Levelling.{Passes, Full};
ghost use Rattle.tables.specs.Closing.{Used};

use crate::nodes::{Pair, next_pair, place_of};
use crate::passes::{absent, seek, start};
use crate::rules::relax_pair;
use trees::SuffixTree;
use words::Factors;

// What the entry of a pair is whose rules are yet to be used, and what it is when nothing is known of the pair. Relaxed by the first, a conclusion whose other
// premise is 0 becomes 1; by a premise that is 1 itself it would become 2, so that pair's own turn has yet to come.
const FRESH: u16 = 1;

const UNKNOWN: u16 = 2;

// The pair's rules are used where its entry is 1, which is 0 from then on.
fn use_pair(table: &mut [u16], tree: &SuffixTree, x: usize, y: usize)
    requires ready { Ready tree.now.count 1 table.old }
    requires linked { Linked_in tree.now }
    requires x_lt_count { x < tree.now.count }
    requires y_lt_count { y < tree.now.count }
    ensures { Used (Rule_in tree.now) (place tree.now.count x y) table.old table.new }
{
    let z = place_of(tree.count, x, y);
    if table[z] == FRESH {
        table[z] = 0;
        relax_pair(table, tree, x, y, Factors(FRESH));
    }
}

// One pass over all places, from the first to the last. Rows without a pair whose rules are yet to be used are passed over.
fn sweep(table: &mut [u16], tree: &SuffixTree)
    requires ready { Ready tree.now.count 1 table.old }
    requires linked { Linked_in tree.now }
    requires le_count { 1 ≤ tree.now.count }
    ensures { Passes (Used (Rule_in tree.now)) (tree.now.count * tree.now.count) table.old table.new }
{
    let mut pair = Pair { row: 0, column: 0 };
    while pair.row < tree.count {
        let x = pair.row;
        let y = seek(table, tree.count, x, pair.column, Factors(FRESH));
        use_pair(table, tree, x, y);
        pair = next_pair(Pair { row: x, column: y }, tree.count);
    }
}

// Whether there is a pair whose rules are yet to be used.
fn has_fresh(table: &[u16]) -> bool
    ensures { Tells result ((p : ℕ) × (p < length table.now) × (entry table.now p ≡ 1)) }
{
    !absent(table, Factors(FRESH), Factors(FRESH))
}

// Fills the whole table, with no bound.
pub(crate) fn close_pairs(table: &mut [u16], tree: &SuffixTree)
    requires table_len { length table.old ≡ tree.now.count * tree.now.count }
    requires le_count { 1 ≤ tree.now.count }
    requires count_le_most_of_entry { tree.now.count ≤ most_of_entry }
    requires linked { Linked_in tree.now }
    requires all_below { AllBelow tree.now.wholes.now (length tree.now.wholes.now) tree.now.count }
    ensures { Full tree.now.count tree.now.letters.now tree.now.rests.now tree.now.wholes.now weightless 1 table.new }
{
    table.fill(UNKNOWN);
    start(table, tree);
    while has_fresh(table) {
        sweep(table, tree);
    }
}
