// The bounded verdict: is the target a product of at most n generators?
//
// A list is two slices in every call, its letters and its ends, as document 01 and C have it: as one value it would be named twice in each clause. The tables
// and the witness are lent one by one: of a value that holds `&mut` slices each clause has to say besides that it still holds the same ones.
#![tactic(auto)]

pub mod judging;

ghost use Rattle.engine.specs.Calls.{Judges};

use limits::{GENERATORS, LIST_STATES};
use queries::room::Room;
use words::{Factors, Refusal};

// Is the target a product of the list's generators, of at least one factor and at most n? The verdict is a member, with the count of its factors, or none. Of
// a member's least series the first, when numbers are compared from left to right, is written to the front of `witness`, as generator numbers, and the count is
// how many they are. A refusal changes nothing; after a verdict the first q * q entries of both tables are 0.
pub fn judge(
    bytes: &[u8],
    ends: &[u16],
    target: &[u8],
    n: Factors,
    first: &mut [u16],
    second: &mut [u16],
    witness: &mut [u8],
) -> Result<Option<Factors>, Refusal>
    ensures { Judges bytes.now ends.now target.now n.0 result
        (record { first = first.old; second = second.old; witness = witness.old })
        (record { first = first.new; second = second.new; witness = witness.new }) }
{
    let mut room = Room::<LIST_STATES, GENERATORS>::new();
    let posed = room.pose(bytes, ends, target)?;
    let form = room.form(posed.t);
    let tree = room.tree(posed.count, ends.len());
    judging::judge_form(form, posed.m, &tree, n, first, second, witness)
}
