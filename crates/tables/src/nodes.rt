// Nodes of the tree and pairs of them. A node is a number below `count`.
ghost use Rattle.std.specs.Prelude.{◌≡◌, ◌+◌, ◌*◌, ◌^◌, ◌≤◌, ◌<◌, length};
ghost use Rattle.refusals.specs.Telling.{Tells};
ghost use Rattle.trees.specs.Tree.{most_of_entry};
ghost use Rattle.tables.specs.Rules.{place, next_pair};
ghost use Rattle.tables.specs.Nodes.{Finds, Node, node_or, NotedAt, RestsEarlier, Begins, Front};

use trees::SuffixTree;
use trees::entries::entry;

// The child of p, where it has one.
pub(crate) fn child(children: &[u16], p: usize) -> Option<usize>
    requires { p < length children.now }
    ensures { NotedAt children.now p result }
{
    let c = entry(children, p);
    if c == 0 { None } else { Some(c) }
}

// Whether p's word begins with the letter. The letter of node 0 means nothing.
pub(crate) fn begins(letters: &[u8], letter: u8, p: usize) -> bool
    requires { p < length letters.now }
    ensures { Tells result (Begins letters.now letter p) }
{
    p != 0 && letters[p] == letter
}

// The rest of p, where p's word begins with the letter.
pub(crate) fn rest_after(tree: &SuffixTree, letter: u8, p: usize) -> Option<usize>
    requires count_in_bounds { tree.now.count ≤ length tree.now.letters.now }
    requires count_in_bounds_2 { tree.now.count ≤ length tree.now.rests.now }
    requires rests_earlier { RestsEarlier tree.now.rests.now tree.now.count }
    requires p_lt_count { p < tree.now.count }
    ensures front { Finds tree.now.count (Front tree.now.count tree.now.letters.now tree.now.rests.now letter p) (node_or tree.now.count result) }
    ensures node { Node tree.now.count result }
{
    if begins(tree.letters, letter, p) {
        Some(entry(tree.rests, p))
    } else {
        None
    }
}

// The place of a pair in the table.
pub(crate) fn place_of(count: usize, row: usize, column: usize) -> usize
    requires count_le_most_of_entry { count ≤ most_of_entry }
    requires row_lt_count { row < count }
    requires column_lt_count { column < count }
    ensures { (result ≡ place count row column) × (result < count * count) }
{
    row * count + column
}

#[derive(Drop)]
pub(crate) struct Pair {
    pub(crate) row: usize,
    pub(crate) column: usize,
}

// The pair after a pair, in a table with `width` columns: nothing is divided, and one comparison tells whether the row is carried.
pub(crate) fn next_pair(pair: Pair, width: usize) -> Pair
    requires { (pair.row + 1 < 2 ^ 64) × (pair.column + 1 < 2 ^ 64) }
    ensures { (result.row, result.column) ≡ next_pair width pair.row pair.column }
{
    let column = pair.column + 1;
    if column < width {
        return Pair {
            row: pair.row,
            column,
        };
    }
    let row = pair.row + 1;
    Pair { row, column: 0 }
}
