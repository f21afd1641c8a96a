// The verdict without a bound: is the target a product of generators, of however many?
#![tactic(auto)]

mod deciding;

ghost use Rattle.reach.specs.Calls.{Reaches};

use limits::{GENERATORS, LIST_STATES};
use queries::room::Room;
use words::Refusal;

// Is the target a product of the list's generators, of one factor or more? No series is written and nothing is counted. A refusal changes nothing; after a
// yes or a no the first q * q entries of both tables are 0.
pub fn reachable(
    bytes: &[u8],
    ends: &[u16],
    target: &[u8],
    first: &mut [u16],
    second: &mut [u16],
) -> Result<bool, Refusal>
    ensures { Reaches bytes.now ends.now target.now result
        (record { first = first.old; second = second.old })
        (record { first = first.new; second = second.new }) }
{
    let mut room = Room::<LIST_STATES, GENERATORS>::new();
    let posed = room.pose(bytes, ends, target)?;
    let form = room.form(posed.t);
    let tree = room.tree(posed.count, ends.len());
    deciding::reach_form(form, posed.m, &tree, first, second)
}
