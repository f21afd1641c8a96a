// Whether the inputs fit: a linear test, total for slices of any length and content.
ghost use Rattle.std.specs.Prelude.{◌≡◌};
ghost use Rattle.refusals.specs.Telling.{Tells};
ghost use Rattle.trees.specs.Building.{Fits};
ghost use Rattle.trees.specs.Ends.{end_before, EndFits, EndsFit};

use crate::entries;
use crate::entries::entry;

// The end before generator i: 0 for the first.
pub(crate) fn end_before(ends: &[u16], i: usize) -> usize
    ensures { result ≡ end_before ends.now i }
{
    if i == 0 {
        return 0;
    }
    entry(ends, i - 1)
}

fn end_fits(ends: &[u16], i: usize, limit: usize) -> bool
    ensures { Tells result (EndFits ends.now limit i) }
{
    let end = entry(ends, i);
    end_before(ends, i) <= end && end <= limit
}

fn ends_fit(ends: &[u16], limit: usize) -> bool
    ensures { Tells result (EndsFit ends.now limit) }
{
    for i in 0..ends.len() {
        if !end_fits(ends, i, limit) {
            return false;
        }
    }
    true
}

pub(crate) fn fits(
    bytes: &[u8],
    ends: &[u16],
    letters: &[u8],
    rests: &[u16],
    children_r: &[u16],
    children_s: &[u16],
    wholes: &[u16],
) -> bool
    ensures { Tells result
        (Fits bytes.now ends.now letters.now rests.now
        children_r.now children_s.now wholes.now) }
{
    bytes.len() < entries::MOST
        && bytes.len() < letters.len()
        && bytes.len() < rests.len()
        && bytes.len() < children_r.len()
        && bytes.len() < children_s.len()
        && wholes.len() == ends.len()
        && ends_fit(ends, bytes.len())
}
