// The choices of items, in a table of the layout of the counts.
ghost use Rattle.std.specs.Prelude.{◌≡◌, ◌-◌, ◌≤◌, ◌<◌, length, set};
ghost use Rattle.trees.specs.Tree.{most_of_entry};
ghost use Rattle.tables.specs.Rules.{place};
ghost use Rattle.witness.specs.Choices.{choice_at};

use trees::entries::entry;

// The item is needed; and its candidates' parts are needed too.
pub(crate) const NEEDED: u16 = 65535;

pub(crate) const MARKED: u16 = 65534;

pub(crate) fn choice(count: usize, choices: &[u16], x: usize, y: usize) -> usize
    requires { (1 ≤ x) × (place count (x - 1) y < length choices.now) }
    ensures { (result ≡ choice_at count choices.now x y) × (result ≤ most_of_entry) }
{
    entry(choices, (x - 1) * count + y)
}

pub(crate) fn set_choice(count: usize, choices: &mut [u16], x: usize, y: usize, c: u16)
    requires { (1 ≤ x) × (place count (x - 1) y < length choices.old) }
    ensures { choices.new ≡ set choices.old (place count (x - 1) y) c }
{
    choices[(x - 1) * count + y] = c;
}
