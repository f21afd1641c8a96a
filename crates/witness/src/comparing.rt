// Two stacks of items, compared: both are spelled at once from the left, until two factors differ. Where both have the same item on top both drop it, since
// it spells the same; of two different ones the heavier is taken apart.
ghost use Rattle.std.specs.Prelude.{List, ◌∷◌, ℕ, ◌+◌, ◌<◌};
ghost use Rattle.refusals.specs.Telling.{Tells, pick};
ghost use Rattle.products.specs.Product.{Before};
ghost use Rattle.derivations.specs.Ways.{world_of};
ghost use Rattle.witness.specs.Choices.{choice_at, Small, AllSettled};
ghost use Rattle.witness.specs.Stacks.{Spelled, Standing, TakenApart};
ghost use Rattle.witness.specs.Comparing.{TopsTell, Compares};

use crate::choices::choice;
use crate::stacks::Stack;
use derivations::Setting;
use items::Counts;
use std::ops::ControlFlow;

// Two items on top: they are the same, they are two factors that differ, with whether the first is the smaller, or which of them is to be taken apart.
#[derive(Drop)]
enum Tops {
    Same,
    Differ(bool),
    First,
    Second,
}

// An item that was taken off the stack, and is no factor, gives way to its parts in the way that is chosen for it.
pub(crate) fn take_apart(setting: &Setting, choices: &[u16], stack: &mut Stack, x: usize, y: usize)
    requires small { Small (world_of setting.now) choices.now }
    requires all_settled { AllSettled (world_of setting.now) (choice_at setting.now.tree.count choices.now) }
    requires standing { Standing (world_of setting.now) (choice_at setting.now.tree.count choices.now) ((x, y) ∷ stack.old) }
    requires no_factor { 0 < x }
    ensures { TakenApart (world_of setting.now) (choice_at setting.now.tree.count choices.now) ((x, y) ∷ stack.old) stack.new }
{
    let way = choice(setting.tree.count, choices, x, y) - 1;
    stack.push_parts(items::parts(setting, x, y, way));
}

// Is the first item the one to be taken apart? They differ, and one of them is no factor.
fn takes_first(counts: &Counts, x: usize, y: usize, u: usize, v: usize) -> bool
    requires { 0 < x + u }
    ensures { 0 < pick result x u }
{
    x != 0 && (u == 0 || items::weight(counts, u, v) <= items::weight(counts, x, y))
}

// What the items on top of the two stacks tell.
fn compare_tops(counts: &Counts, x: usize, y: usize, u: usize, v: usize) -> Tops
    ensures { TopsTell x y u v result }
{
    if x == u {
        if y == v {
            return Tops::Same;
        }
        if x == 0 {
            return Tops::Differ(y < v);
        }
    }
    if takes_first(counts, x, y, u, v) {
        return Tops::First;
    }
    Tops::Second
}

// One step: the answer, or both stacks again, of which one costs less.
fn compare_once(
    setting: &Setting,
    choices: &[u16],
    first: &mut Stack,
    second: &mut Stack,
) -> ControlFlow<bool, ()>
    requires small { Small (world_of setting.now) choices.now }
    requires all_settled { AllSettled (world_of setting.now) (choice_at setting.now.tree.count choices.now) }
    requires standing { Standing (world_of setting.now) (choice_at setting.now.tree.count choices.now) first.old }
    requires standing_2 { Standing (world_of setting.now) (choice_at setting.now.tree.count choices.now) second.old }
    ensures { Compares (world_of setting.now) (choice_at setting.now.tree.count choices.now) first.old second.old
        result first.new second.new }
{
    if first.height() == 0 || second.height() == 0 {
        return ControlFlow::Break(false);
    }
    let (x, y) = first.top();
    let (u, v) = second.top();
    match compare_tops(&Counts::of(setting), x, y, u, v) {
        Tops::Same => {
            first.pop();
            second.pop();
            ControlFlow::Continue(())
        }
        Tops::Differ(smaller) => ControlFlow::Break(smaller),
        Tops::First => {
            first.pop();
            take_apart(setting, choices, first, x, y);
            ControlFlow::Continue(())
        }
        Tops::Second => {
            second.pop();
            take_apart(setting, choices, second, u, v);
            ControlFlow::Continue(())
        }
    }
}

// Is what the first stack spells before what the second spells?
pub(crate) fn before(
    setting: &Setting,
    choices: &[u16],
    first: &mut Stack,
    second: &mut Stack,
) -> bool
    requires small { Small (world_of setting.now) choices.now }
    requires all_settled { AllSettled (world_of setting.now) (choice_at setting.now.tree.count choices.now) }
    requires standing { Standing (world_of setting.now) (choice_at setting.now.tree.count choices.now) first.old }
    requires standing_2 { Standing (world_of setting.now) (choice_at setting.now.tree.count choices.now) second.old }
    ensures { (r s : List ℕ) → Spelled (world_of setting.now) first.old r → Spelled (world_of setting.now) second.old s → Tells result (Before r s) }
{
    loop {
        if let ControlFlow::Break(answer) = compare_once(setting, choices, first, second) {
            return answer;
        }
    }
}
