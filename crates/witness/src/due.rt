// What is due in a sweep, and where. The choices and the counts have one layout, so a sweep goes by plain places, a block of them at a time; only the item at a
// place that is due is named by its two numbers, and they are carried along from an item before.
ghost use Rattle.std.specs.Prelude.{◌+◌, ◌*◌, ◌≤◌, ◌<◌, length};
ghost use Rattle.refusals.specs.Telling.{Tells};
ghost use Rattle.trees.specs.Tree.{most_of_entry};
ghost use Rattle.witness.specs.Due.{Due, SomeDue, StandsAt};

// How many places are looked at together. Of many blocks each is passed over without a look at its items.
const BLOCK: usize = 256;

// The state of a choice and the weight are those that are due. No early end.
pub(crate) fn is_due(choice: u16, weight: u16, state: u16, k: u16) -> bool
    ensures { Tells result (Due state k choice weight) }
{
    (choice == state) & (weight == k)
}

// Whether something is due. No early end, so that the loop runs on many entries at once.
fn has_due(choices: &[u16], counts: &[u16], state: u16, k: u16) -> bool
    requires { length choices.now ≤ length counts.now }
    ensures { Tells result (SomeDue state k choices.now counts.now 0 (length choices.now)) }
{
    let mut due = false;
    // By index: the counts may be more.
    for p in 0..choices.len() {
        due |= is_due(choices[p], counts[p], state, k);
    }
    due
}

// Whether something is due from the place `from` up to `end`.
pub(crate) fn block_due(
    choices: &[u16],
    counts: &[u16],
    from: usize,
    end: usize,
    state: u16,
    k: u16,
) -> bool
    requires { (from ≤ end) × (end ≤ length choices.now) × (end ≤ length counts.now) }
    ensures { Tells result (SomeDue state k choices.now counts.now from end) }
{
    has_due(&choices[from..end], &counts[from..end], state, k)
}

// Where the block before the place `end` begins.
pub(crate) fn block_before(end: usize) -> usize
    ensures { (result ≤ end) × (1 ≤ end → result < end) }
{
    end.saturating_sub(BLOCK)
}

// Where the block from the place `from` on ends.
pub(crate) fn block_after(from: usize, end: usize) -> usize
    requires { from < end }
    ensures { (from < result) × (result ≤ end) }
{
    from + BLOCK.min(end - from)
}

// The first and the second number of the item at the place p, found row by row from an item with the first number `near`.
pub(crate) fn item_at(count: usize, near: usize, p: usize) -> (usize, usize)
    requires le_count { (1 ≤ count) × (count ≤ most_of_entry) }
    requires le_near { (1 ≤ near) × (near ≤ most_of_entry) }
    requires p_bound { p ≤ most_of_entry * most_of_entry }
    ensures { StandsAt count p result.0 result.1 }
{
    let mut x = near;
    let mut start = (near - 1) * count;
    while start + count <= p {
        start += count;
        x += 1;
    }
    while p < start {
        start -= count;
        x -= 1;
    }
    (x, p - start)
}
