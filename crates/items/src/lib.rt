// Items by their numbers: what an item weighs, its parts in a way, and whether those weigh what it does (Rattle.derivations, specs/Ways.antt). Nothing is
// asked of the slices: a place that a slice does not have reads as 0, and what is no item weighs 0.
#![tactic(auto)]

mod halves;
mod pairs;
mod shifts;
mod target_rows;
mod weights;

ghost use Rattle.std.specs.Prelude.{◌≡◌, length, ◌≤◌};
ghost use Rattle.refusals.specs.Telling.{Tells};
ghost use Rattle.trees.specs.Tree.{most_of_entry};
ghost use Rattle.derivations.specs.Derivations.{Alone, Tight};
ghost use Rattle.derivations.specs.Ways.{parts_in, weight_in, world_of, ways as ways_of};
ghost use Rattle.items.specs.Counts.{weigh_by};

use derivations::{Parts, Setting};

// The table of counts, and the numbers that it is read by: of nodes, of generators, and of the target's letters. They need not be the lengths of any slices.
#[derive(Clone, Copy)]
pub struct Counts<'a> {
    pub count: usize,
    pub generators: usize,
    pub letters: usize,
    pub entries: &'a [u16],
}

impl<'a> Counts<'a> {
    // Those of a setting.
    #[inline(always)]
    pub fn of(setting: &Setting<'a>) -> Counts<'a>
        ensures { weigh_by result ≡ weight_in (world_of setting.now) }
    {
        Counts {
            count: setting.tree.count,
            generators: setting.tree.wholes.len(),
            letters: setting.target.len(),
            entries: setting.counts,
        }
    }
}

// What an item weighs.
pub fn weight(counts: &Counts, x: usize, y: usize) -> usize
    ensures { (result ≡ weigh_by counts.now x y) × (result ≤ most_of_entry) }
{
    if x == 0 {
        return weights::of_factor(counts.generators, y);
    }
    weights::in_table(counts, x - 1, y)
}

// No way of an item from this number on has parts that weigh what the item does.
pub fn ways(count: usize, generators: usize, x: usize) -> usize
    ensures { result ≡ ways_of count generators x }
{
    if x == 1 {
        return generators;
    }
    if trees::entries::MOST < count {
        return 0;
    }
    if count < x {
        return count;
    }
    count + count
}

// The parts of an item in a way.
pub fn parts(setting: &Setting, x: usize, y: usize, d: usize) -> Parts
    ensures { result ≡ parts_in (world_of setting.now) x y d }
{
    if x == 0 {
        return Parts::Nothing;
    }
    if x - 1 < setting.tree.count {
        return pairs::of_pair(&setting.tree, setting.counts, x, y, d);
    }
    target_rows::next_row(
        &setting.tree,
        setting.target,
        x - 1 - setting.tree.count,
        y,
        d,
    )
}

// Are the parts tight at the item?
pub fn is_tight(counts: &Counts, x: usize, y: usize, p: Parts) -> bool
    ensures { Tells result (Tight (weigh_by counts.now) x y p) }
{
    match p {
        Parts::One(a, b) => weights::one_is_tight(counts, x, y, a, b),
        Parts::Two(a, b, c, d) => weights::two_are_tight(counts, x, y, a, b, c, d),
        Parts::Nothing => false,
    }
}

// Is the item decided by its first way of this kind?
pub fn alone(x: usize, p: Parts) -> bool
    ensures { Tells result (Alone x p) }
{
    match p {
        Parts::One(..) => true,
        Parts::Two(..) => x == 1,
        Parts::Nothing => false,
    }
}
