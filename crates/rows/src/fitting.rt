// Whether the inputs fit: the lengths, then the children, then the entries of the table. A test that looks at each entry once.
ghost use Rattle.refusals.specs.Telling.{Tells};
ghost use Rattle.rows.specs.Rows.{Room, Fits};

use trees::SuffixTree;
use trees::entries::all_at_most;
use words::Factors;

fn has_room(letters: usize, count: usize, n: Factors, rows: usize) -> bool
    ensures { Tells result (Room count n.0 letters rows) }
{
    1 <= count
        && count <= limits::STATES_ROOM
        && letters <= limits::WORD_LETTERS
        && n.0 <= limits::BOUND
        && (letters + 1) * count <= rows
}

pub(crate) fn fits(
    target: &[u8],
    tree: &SuffixTree,
    n: Factors,
    table: &[u16],
    rows: &[u16],
) -> bool
    ensures { Tells result
        (Fits tree.now.count n.0 tree.now.children_r.now tree.now.children_s.now target.now table.now rows.now) }
{
    let count = tree.count;
    if !has_room(target.len(), count, n, rows.len()) {
        return false;
    }
    let last = (count - 1) as u16;
    all_at_most(tree.children_r, count, last)
        && all_at_most(tree.children_s, count, last)
        && all_at_most(table, count * count, n.0 + 1)
}
