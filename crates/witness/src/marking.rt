// Which items are needed: the parts of a needed item's candidates.
ghost use Rattle.std.specs.Prelude.{◌≡◌, length};
ghost use Rattle.derivations.specs.Ways.{world_of};
ghost use Rattle.witness.specs.Choices.{Item, Small};
ghost use Rattle.witness.specs.Marking.{Within, PartsWithin, with_need, with_needs, MarksWay, Marks};

use crate::choices::{MARKED, NEEDED, choice, set_choice};
use derivations::{Parts, Setting};
use items::Counts;

// The item is needed, if it is no factor.
pub(crate) fn need(count: usize, choices: &mut [u16], x: usize, y: usize)
    requires { Within count (length choices.old) x y }
    ensures { choices.new ≡ with_need count choices.old x y }
{
    if x == 0 {
        return;
    }
    if choice(count, choices, x, y) == 0 {
        set_choice(count, choices, x, y, NEEDED);
    }
}

fn need_parts(count: usize, choices: &mut [u16], p: Parts)
    requires { PartsWithin count (length choices.old) p }
    ensures { choices.new ≡ with_needs count choices.old p }
{
    match p {
        Parts::One(a, b) => need(count, choices, a, b),
        Parts::Two(a, b, c, d) => {
            need(count, choices, a, b);
            need(count, choices, c, d);
        }
        Parts::Nothing => {}
    }
}

// The parts in the way d are needed where they are tight; the answer is whether the item is decided.
fn mark_way(setting: &Setting, choices: &mut [u16], x: usize, y: usize, d: usize) -> bool
    requires small { Small (world_of setting.now) choices.old }
    requires item { Item (world_of setting.now) x y }
    ensures { MarksWay (world_of setting.now) x y d choices.old result choices.new }
{
    let p = items::parts(setting, x, y, d);
    if items::is_tight(&Counts::of(setting), x, y, p) {
        need_parts(setting.tree.count, choices, p);
        return items::alone(x, p);
    }
    false
}

// The parts of every candidate of the item are needed.
pub(crate) fn mark(setting: &Setting, choices: &mut [u16], x: usize, y: usize)
    requires small { Small (world_of setting.now) choices.old }
    requires item { Item (world_of setting.now) x y }
    ensures { Marks (world_of setting.now) x y choices.old choices.new }
{
    set_choice(setting.tree.count, choices, x, y, MARKED);
    let many = items::ways(setting.tree.count, setting.tree.wholes.len(), x);
    for d in 0..many {
        if mark_way(setting, choices, x, y, d) {
            return;
        }
    }
}
