// The choice of an item: of its candidates one whose series is no later than any other's.
ghost use Rattle.std.specs.Prelude.{Some, suc, ◌≤◌};
ghost use Rattle.limits.specs.Limits.{most_factors};
ghost use Rattle.trees.specs.Tree.{most_of_entry};
ghost use Rattle.derivations.specs.Derivations.{Candidate};
ghost use Rattle.derivations.specs.Ways.{world_of, parts_in, weight_in};
ghost use Rattle.witness.specs.Choices.{choice_at, Item, Small, AllSettled, CandidatesDone, Chooses};
ghost use Rattle.witness.specs.Choosing.{Choosable, TellsBefore, BestBelow, Undecided, Tried, BestOfAll};

use crate::choices::set_choice;
use crate::comparing::before;
use crate::stacks::Stack;
use derivations::Setting;
use items::Counts;
use std::ops::ControlFlow;

// Is the series of the way d before that of the way e?
fn is_before(
    setting: &Setting,
    choices: &[u16],
    first: &mut Stack,
    second: &mut Stack,
    x: usize,
    y: usize,
    d: usize,
    e: usize,
) -> bool
    requires choosable { Choosable (world_of setting.now) choices.now x y }
    requires candidate { Candidate (parts_in (world_of setting.now)) (weight_in (world_of setting.now)) x y d }
    requires candidate_2 { Candidate (parts_in (world_of setting.now)) (weight_in (world_of setting.now)) x y e }
    ensures { TellsBefore (world_of setting.now) x y d e result }
{
    first.clear();
    first.push_parts(items::parts(setting, x, y, d));
    second.clear();
    second.push_parts(items::parts(setting, x, y, e));
    before(setting, choices, first, second)
}

// The better of the best way so far and the way d, which is tight.
fn better(
    setting: &Setting,
    choices: &[u16],
    first: &mut Stack,
    second: &mut Stack,
    x: usize,
    y: usize,
    best: Option<usize>,
    d: usize,
) -> usize
    requires choosable { Choosable (world_of setting.now) choices.now x y }
    requires best_below { BestBelow (world_of setting.now) x y best d }
    requires candidate { Candidate (parts_in (world_of setting.now)) (weight_in (world_of setting.now)) x y d }
    ensures { BestBelow (world_of setting.now) x y (Some result) (suc d) }
{
    let Some(so_far) = best else {
        return d;
    };
    if is_before(setting, choices, first, second, x, y, d, so_far) {
        return d;
    }
    so_far
}

// One way more: the best one so far, or the one that is best since the item is decided.
fn try_way(
    setting: &Setting,
    choices: &[u16],
    first: &mut Stack,
    second: &mut Stack,
    x: usize,
    y: usize,
    best: Option<usize>,
    d: usize,
) -> ControlFlow<usize, Option<usize>>
    requires choosable { Choosable (world_of setting.now) choices.now x y }
    requires best_below { BestBelow (world_of setting.now) x y best d }
    requires undecided { Undecided (world_of setting.now) x y d }
    ensures { Tried (world_of setting.now) x y d result }
{
    let p = items::parts(setting, x, y, d);
    if items::is_tight(&Counts::of(setting), x, y, p) {
        let way = better(setting, choices, first, second, x, y, best, d);
        if items::alone(x, p) {
            return ControlFlow::Break(way);
        }
        return ControlFlow::Continue(Some(way));
    }
    ControlFlow::Continue(best)
}

// The best way of all, if any is tight.
fn best_way(
    setting: &Setting,
    choices: &[u16],
    first: &mut Stack,
    second: &mut Stack,
    x: usize,
    y: usize,
) -> Option<usize>
    requires { Choosable (world_of setting.now) choices.now x y }
    ensures { BestOfAll (world_of setting.now) x y result }
{
    let many = items::ways(setting.tree.count, setting.tree.wholes.len(), x);
    let mut best = None;
    for d in 0..many {
        match try_way(setting, choices, first, second, x, y, best, d) {
            ControlFlow::Continue(way) => best = way,
            ControlFlow::Break(way) => return Some(way),
        }
    }
    best
}

// Chooses a way for the item, whose candidates' parts are done; the answer is whether there is one.
pub(crate) fn choose(
    setting: &Setting,
    choices: &mut [u16],
    first: &mut Stack,
    second: &mut Stack,
    x: usize,
    y: usize,
) -> bool
    requires small { Small (world_of setting.now) choices.old }
    requires item { Item (world_of setting.now) x y }
    requires y_bound { weight_in (world_of setting.now) x y ≤ most_factors }
    requires all_settled { AllSettled (world_of setting.now) (choice_at setting.now.tree.count choices.old) }
    requires candidates_done { CandidatesDone (world_of setting.now) (choice_at setting.now.tree.count choices.old) x y }
    ensures { Chooses (world_of setting.now) x y choices.old result choices.new }
{
    let Some(way) = best_way(setting, choices, first, second, x, y) else {
        return false;
    };
    set_choice(setting.tree.count, choices, x, y, way as u16 + 1);
    true
}
