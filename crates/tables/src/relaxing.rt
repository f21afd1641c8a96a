// Stores that lower one entry of the table: to the level k, or to k more than another entry.
ghost use Rattle.std.specs.Prelude.{◌≡◌, ◌+◌, ◌≤◌, ◌<◌, min, length, set};
ghost use Rattle.trees.specs.Tree.{most_of_entry};
ghost use Rattle.levels.specs.Levels.{entry, Relaxed};
ghost use Rattle.levels.specs.Passes.{Only};
ghost use Rattle.tables.specs.Nodes.{Node, node_or};
ghost use Rattle.tables.specs.Relaxing.{Ready, Inside, One};

use crate::nodes::place_of;
use words::Factors;

// The store at the level, where it lowers.
pub(crate) fn relax(table: &mut [u16], to: usize, k: Factors)
    requires { to < length table.old }
    ensures { table.new ≡ set table.old to (min (entry table.old to) k.0) }
{
    if k.0 < table[to] {
        table[to] = k.0;
    }
}

// The store at the sum of the level and another entry, where it lowers: for places that are far apart.
pub(crate) fn relax_from(table: &mut [u16], from: usize, to: usize, k: Factors)
    requires from_in_bounds { from < length table.old }
    requires to_in_bounds { to < length table.old }
    requires from_bound { k.0 + entry table.old from ≤ most_of_entry }
    ensures { Relaxed k.0 (Only from to) table.old table.new }
{
    let sum = k.0 + table[from];
    relax(table, to, Factors(sum));
}

// The same with a store at every turn, so that a loop over neighbouring places runs on many at once.
pub(crate) fn lower(table: &mut [u16], from: usize, to: usize, k: Factors)
    requires from_in_bounds { from < length table.old }
    requires to_in_bounds { to < length table.old }
    requires from_bound { k.0 + entry table.old from ≤ most_of_entry }
    ensures { Relaxed k.0 (Only from to) table.old table.new }
{
    table[to] = table[to].min(k.0 + table[from]);
}

// A rule with one premise, at the pair of a and b where both are there. The place one past the end stands for the other premise.
pub(crate) fn relax_at(
    table: &mut [u16],
    count: usize,
    a: Option<usize>,
    b: Option<usize>,
    k: Factors,
)
    requires ready { Ready count k.0 table.old }
    requires a_node { Node count a }
    requires b_node { Node count b }
    ensures { Relaxed k.0 (Inside count (node_or count a) (node_or count b) (One count)) table.old table.new }
{
    if let Some(a) = a {
        if let Some(b) = b {
            relax(table, place_of(count, a, b), k);
        }
    }
}
