// The witness: of the least series that make the target, the first when their numbers are compared from left to right. The counts are known; the choices
// are made here. Only items that the target's derivations need are looked at: they are marked from the target's item downwards, and then chosen upwards, so
// that an item is chosen when all its parts are. Two candidates are compared by spelling both at once.
#![tactic(auto)]

mod choices;
mod choosing;
mod comparing;
mod due;
mod marking;
mod spelling;
mod stacks;
mod sweeping;

ghost use Rattle.std.specs.Prelude.{◌≡◌, ◌≤◌, length, replicate};
ghost use Rattle.limits.specs.Limits.{most_letters, most_states};
ghost use Rattle.refusals.specs.Telling.{Tells};
ghost use Rattle.slices.specs.Slices.{overwritten};
ghost use Rattle.derivations.specs.Ways.{world_of, row_item, weight_in, whole as whole_of};
ghost use Rattle.witness.specs.Choices.{Small};
ghost use Rattle.witness.specs.Sweeping.{MarksTo};
ghost use Rattle.witness.specs.Witness.{Fits, Writes};
ghost use Rattle.witness.specs.Room.{Room};

use crate::choices::{NEEDED, set_choice};
use crate::stacks::Stack;
use derivations::Setting;
use items::Counts;
use trees::Unfit;
use words::Factors;

// A factor is written as a byte.
const NUMBERS: usize = 256;

fn has_room(
    letters: usize,
    count: usize,
    generators: usize,
    n: Factors,
    choices: usize,
    witness: usize,
) -> bool
    ensures { Tells result (Room letters count generators n.0 choices witness) }
{
    0 < count
        && count <= limits::STATES_ROOM
        && letters <= limits::WORD_LETTERS
        && generators <= NUMBERS
        && n.0 as usize <= limits::WITNESS_ROOM
        && n.0 as usize <= witness
        && (count + letters) * count <= choices
}

fn clear(choices: &mut [u16], many: usize)
    requires { many ≤ length choices.old }
    ensures { choices.new ≡ overwritten (replicate many 0) choices.old }
{
    choices[..many].fill(0);
}

// The first number of the target's item: its last row, or where it has no letter the pairs of node 0.
fn whole(count: usize, letters: usize) -> usize
    requires { (count ≤ most_states) × (letters ≤ most_letters) }
    ensures { result ≡ row_item count letters }
{
    if letters == 0 {
        return 1;
    }
    count + letters
}

// Marks everything that the item (x, 0) of weight k needs.
fn mark_from(setting: &Setting, choices: &mut [u16], x: usize, k: Factors)
    requires small { Small (world_of setting.now) choices.old }
    requires x_value { x ≡ whole_of (world_of setting.now) }
    requires le_k { (1 ≤ k.0) × (weight_in (world_of setting.now) x 0 ≡ k.0) }
    ensures { MarksTo (world_of setting.now) 1 0 choices.old choices.new }
{
    clear(
        choices,
        (setting.tree.count + setting.target.len()) * setting.tree.count,
    );
    set_choice(setting.tree.count, choices, x, 0, NEEDED);
    sweeping::mark_all(setting, choices, k);
}

// Marks and chooses, from the item (x, 0) of weight k on, and writes its series.
fn write(
    setting: &Setting,
    choices: &mut [u16],
    witness: &mut [u8],
    x: usize,
    k: Factors,
) -> Result<Factors, Unfit>
    requires fits { Fits (world_of setting.now) k.0 choices.old witness.old }
    requires x_value { x ≡ whole_of (world_of setting.now) }
    requires le_k { (1 ≤ k.0) × (weight_in (world_of setting.now) x 0 ≡ k.0) }
    ensures { Writes (world_of setting.now) k.0 result choices.old witness.old choices.new witness.new }
{
    let mut first = Stack::new();
    let mut second = Stack::new();
    mark_from(setting, choices, x, k);
    if sweeping::choose_all(setting, choices, &mut first, &mut second, k) {
        let count = spelling::spell(setting, choices, &mut first, witness, x, 0);
        return Ok(Factors(count as u16));
    }
    Err(Unfit)
}

// Writes the first series of at most n factors that makes the target, with its count, by a tree, a target, and the counts of the tree's pairs and of the
// target's rows. The choices are made in a table of the counts' layout. Nothing is asked of the slices: where they hold no such series, the answer says so.
pub fn first_series(
    setting: &Setting,
    n: Factors,
    choices: &mut [u16],
    witness: &mut [u8],
) -> Result<Factors, Unfit>
    ensures { Writes (world_of setting.now) n.0 result choices.old witness.old choices.new witness.new }
{
    if has_room(
        setting.target.len(),
        setting.tree.count,
        setting.tree.wholes.len(),
        n,
        choices.len(),
        witness.len(),
    ) {
        let x = whole(setting.tree.count, setting.target.len());
        let k = items::weight(&Counts::of(setting), x, 0);
        if 0 < k && k <= n.0 as usize {
            return write(setting, choices, witness, x, Factors(k as u16));
        }
    }
    Err(Unfit)
}
