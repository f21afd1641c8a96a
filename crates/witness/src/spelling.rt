// The series of an item, spelled by the ways that are chosen.
ghost use Rattle.std.specs.Prelude.{List, ℕ, ◌≤◌, ◌<◌, length};
ghost use Rattle.limits.specs.Limits.{most_factors};
ghost use Rattle.derivations.specs.Ways.{world_of, weight_in};
ghost use Rattle.witness.specs.Choices.{choice_at, Coded, Item, Small, AllSettled};
ghost use Rattle.witness.specs.Spelling.{Halfway, Further};
ghost use Rattle.witness.specs.Witness.{Spells};

use crate::comparing::take_apart;
use crate::stacks::Stack;
use derivations::Setting;

// The factor on top is written, or the item on top is taken apart; the answer is how many factors are written.
fn spell_once(
    setting: &Setting,
    choices: &[u16],
    stack: &mut Stack,
    witness: &mut [u8],
    written: usize,
) -> usize
    requires small { Small (world_of setting.now) choices.now }
    requires all_settled { AllSettled (world_of setting.now) (choice_at setting.now.tree.count choices.now) }
    requires by_index { (old r : List ℕ) × Halfway (world_of setting.now) (choice_at setting.now.tree.count choices.now) old r stack.old witness.old written }
    requires some { 0 < length stack.old }
    ensures { Further (world_of setting.now) (choice_at setting.now.tree.count choices.now) stack.old witness.old written
        stack.new witness.new result }
{
    let (x, y) = stack.pop();
    if x == 0 {
        witness[written] = y as u8;
        return written + 1;
    }
    take_apart(setting, choices, stack, x, y);
    written
}

// Writes the first series of an item, and answers how many factors it has.
pub(crate) fn spell(
    setting: &Setting,
    choices: &[u16],
    stack: &mut Stack,
    witness: &mut [u8],
    x: usize,
    y: usize,
) -> usize
    requires small { Small (world_of setting.now) choices.now }
    requires item { Item (world_of setting.now) x y }
    requires coded { Coded (choice_at setting.now.tree.count choices.now x y) }
    requires y_bound { weight_in (world_of setting.now) x y ≤ most_factors }
    requires y_in_bounds { weight_in (world_of setting.now) x y ≤ length witness.old }
    requires all_settled { AllSettled (world_of setting.now) (choice_at setting.now.tree.count choices.now) }
    ensures { Spells (world_of setting.now) x y result witness.old witness.new }
{
    stack.clear();
    stack.push(x, y);
    let mut written = 0;
    while 0 < stack.height() {
        written = spell_once(setting, choices, stack, witness, written);
    }
    written
}
