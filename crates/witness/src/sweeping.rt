// The sweeps: all items by their weight and their place, downwards to mark what is needed, and upwards to choose. The parts of an item come behind it in
// the one and before it in the other: they weigh less, or as much and have a lower first number, and so an earlier place. Blocks of places at which nothing is
// due are passed over.
ghost use Rattle.std.specs.Prelude.{◌≡◌, ◌+◌, ◌*◌, ◌≤◌, ◌<◌, min, length};
ghost use Rattle.limits.specs.Limits.{most_factors, most_letters, most_states};
ghost use Rattle.derivations.specs.Ways.{world_of, highest};
ghost use Rattle.witness.specs.Choices.{Small};
ghost use Rattle.witness.specs.Sweeping.{swept as swept_of, Marking, Choosing, MarksTo, ChoosesTo};

use crate::choices::{MARKED, NEEDED};
use crate::choosing::choose;
use crate::due::{block_after, block_before, block_due, is_due, item_at};
use crate::marking::mark;
use crate::stacks::Stack;
use derivations::Setting;
use words::Factors;

// Every item stands before this place, which the counts and the choices reach.
fn swept(count: usize, letters: usize, counts: usize) -> usize
    requires { (count ≤ most_states) × (letters ≤ most_letters) }
    ensures { result ≡ min ((count + letters) * count) counts }
{
    counts.min((count + letters) * count)
}

// Marks the items of weight k from the place `from` up to `end`, downwards. The numbers of the first are sought from `near` on.
fn mark_block(
    setting: &Setting,
    choices: &mut [u16],
    k: Factors,
    near: usize,
    from: usize,
    end: usize,
)
    requires small { Small (world_of setting.now) choices.old }
    requires le_near { (1 ≤ near) × (near ≤ highest (world_of setting.now)) }
    requires from_le_end { (from ≤ end) × (end ≤ swept_of (world_of setting.now)) }
    requires le_k { 1 ≤ k.0 }
    requires marking { Marking (world_of setting.now) k.0 end choices.old }
    ensures { MarksTo (world_of setting.now) k.0 from choices.old choices.new }
{
    let mut x = near;
    for p in (from..end).rev() {
        if is_due(choices[p], setting.counts[p], NEEDED, k.0) {
            let (row, y) = item_at(setting.tree.count, x, p);
            mark(setting, choices, row, y);
            x = row;
        }
    }
}

// Marks the items of weight k.
fn mark_weight(setting: &Setting, choices: &mut [u16], k: Factors)
    requires small { Small (world_of setting.now) choices.old }
    requires le_k { 1 ≤ k.0 }
    requires marking { Marking (world_of setting.now) (k.0 + 1) 0 choices.old }
    ensures { MarksTo (world_of setting.now) k.0 0 choices.old choices.new }
{
    let mut x = setting.tree.count + setting.target.len();
    let mut end = swept(
        setting.tree.count,
        setting.target.len(),
        setting.counts.len(),
    );
    // Block by block, of which the last may be a part.
    while 0 < end {
        let from = block_before(end);
        if block_due(choices, setting.counts, from, end, NEEDED, k.0) {
            let (row, _) = item_at(setting.tree.count, x, from);
            x = row;
            mark_block(setting, choices, k, x, from, end);
        }
        end = from;
    }
}

// Marks everything that items of weight at most `most` need.
pub(crate) fn mark_all(setting: &Setting, choices: &mut [u16], most: Factors)
    requires small { Small (world_of setting.now) choices.old }
    requires marking { Marking (world_of setting.now) (most.0 + 1) 0 choices.old }
    ensures { MarksTo (world_of setting.now) 1 0 choices.old choices.new }
{
    for k in (0..most.0).rev() {
        mark_weight(setting, choices, Factors(k + 1));
    }
}

// Chooses for the items of weight k from the place `from` up to `end`. The numbers of the first are sought from `near` on.
fn choose_block(
    setting: &Setting,
    choices: &mut [u16],
    first: &mut Stack,
    second: &mut Stack,
    k: Factors,
    near: usize,
    from: usize,
    end: usize,
) -> bool
    requires small { Small (world_of setting.now) choices.old }
    requires le_near { (1 ≤ near) × (near ≤ highest (world_of setting.now)) }
    requires from_le_end { (from ≤ end) × (end ≤ swept_of (world_of setting.now)) }
    requires le_k { (1 ≤ k.0) × (k.0 ≤ most_factors) }
    requires choosing { Choosing (world_of setting.now) k.0 from choices.old }
    ensures { ChoosesTo (world_of setting.now) k.0 k.0 end choices.old result choices.new }
{
    let mut x = near;
    for p in from..end {
        if !is_due(choices[p], setting.counts[p], MARKED, k.0) {
            continue;
        }
        let (row, y) = item_at(setting.tree.count, x, p);
        x = row;
        if !choose(setting, choices, first, second, row, y) {
            return false;
        }
    }
    true
}

// Chooses for the items of weight k.
fn choose_weight(
    setting: &Setting,
    choices: &mut [u16],
    first: &mut Stack,
    second: &mut Stack,
    k: Factors,
) -> bool
    requires small { Small (world_of setting.now) choices.old }
    requires le_k { (1 ≤ k.0) × (k.0 ≤ most_factors) }
    requires choosing { Choosing (world_of setting.now) k.0 0 choices.old }
    ensures { ChoosesTo (world_of setting.now) k.0 (k.0 + 1) 0 choices.old result choices.new }
{
    let end = swept(
        setting.tree.count,
        setting.target.len(),
        setting.counts.len(),
    );
    let mut x = 1;
    let mut from = 0;
    // Block by block, of which the last may be a part.
    while from < end {
        let stop = block_after(from, end);
        if block_due(choices, setting.counts, from, stop, MARKED, k.0) {
            let (row, _) = item_at(setting.tree.count, x, from);
            x = row;
            if !choose_block(setting, choices, first, second, k, x, from, stop) {
                return false;
            }
        }
        from = stop;
    }
    true
}

// Chooses for all marked items of weight at most `most`; the answer is whether each has a way.
pub(crate) fn choose_all(
    setting: &Setting,
    choices: &mut [u16],
    first: &mut Stack,
    second: &mut Stack,
    most: Factors,
) -> bool
    requires small { Small (world_of setting.now) choices.old }
    requires most_le_most_factors { most.0 ≤ most_factors }
    requires choosing { Choosing (world_of setting.now) 1 0 choices.old }
    ensures { ChoosesTo (world_of setting.now) most.0 (most.0 + 1) 0 choices.old result choices.new }
{
    for k in 0..most.0 {
        if !choose_weight(setting, choices, first, second, Factors(k + 1)) {
            return false;
        }
    }
    true
}
