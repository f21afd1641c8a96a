// The generators of a list are read into the tree, one after the other.
ghost use Rattle.std.specs.Prelude.{◌≡◌, ◌+◌, ◌≤◌, ◌<◌, length, set};
ghost use Rattle.trees.specs.Building.{Fits};
ghost use Rattle.trees.specs.Growing.{node_slices, Remains, Read};

use crate::entries::entry;
use crate::{fitting, growing};

// Node 0, the empty word. Its letter may be anything, and is left.
fn make_root(rests: &mut [u16], children_r: &mut [u16], children_s: &mut [u16])
    requires { (0 < length rests.old) × (0 < length children_r.old) × (0 < length children_s.old) }
    ensures { (rests.new ≡ set rests.old 0 0)
        × (children_r.new ≡ set children_r.old 0 0)
        × (children_s.new ≡ set children_s.old 0 0) }
{
    rests[0] = 0;
    children_r[0] = 0;
    children_s[0] = 0;
}

// Reads generator i, and notes the node of the whole of it. Answers how many nodes there are.
fn read_generator(
    bytes: &[u8],
    ends: &[u16],
    i: usize,
    letters: &mut [u8],
    rests: &mut [u16],
    children_r: &mut [u16],
    children_s: &mut [u16],
    wholes: &mut [u16],
    count: usize,
) -> usize
    requires i_in_bounds { i < length ends.now }
    requires fits { Fits bytes.now ends.now letters.old rests.old children_r.old children_s.old wholes.old }
    requires read { Read bytes.now ends.now i count (node_slices letters.old rests.old children_r.old children_s.old) wholes.old }
    ensures read_2 { Read bytes.now ends.now (i + 1) result
        (node_slices letters.new rests.new children_r.new children_s.new)
        wholes.new }
    ensures lower_bound { (count ≤ result) × Remains result
        (node_slices letters.old rests.old children_r.old children_s.old)
        (node_slices letters.new rests.new children_r.new children_s.new) }
{
    let from = fitting::end_before(ends, i);
    let end = entry(ends, i);
    let place = growing::read_backwards(
        bytes, from, end, letters, rests, children_r, children_s, count,
    );
    wholes[i] = place.node as u16;
    place.count
}

// Makes node 0 and reads every generator. Answers how many nodes there are.
pub(crate) fn read_all(
    bytes: &[u8],
    ends: &[u16],
    letters: &mut [u8],
    rests: &mut [u16],
    children_r: &mut [u16],
    children_s: &mut [u16],
    wholes: &mut [u16],
) -> usize
    requires { Fits bytes.now ends.now letters.old rests.old children_r.old children_s.old wholes.old }
    ensures read { Read bytes.now ends.now (length ends.now) result
        (node_slices letters.new rests.new children_r.new children_s.new)
        wholes.new }
    ensures remains { Remains result
        (node_slices letters.old rests.old children_r.old children_s.old)
        (node_slices letters.new rests.new children_r.new children_s.new) }
{
    make_root(rests, children_r, children_s);
    let mut count = 1;
    for i in 0..ends.len() {
        count = read_generator(
            bytes, ends, i, letters, rests, children_r, children_s, wholes, count,
        );
    }
    count
}
