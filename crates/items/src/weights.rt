// What items weigh.
ghost use Rattle.std.specs.Prelude.{◌≡◌, suc, ◌≤◌, ltb};
ghost use Rattle.refusals.specs.Telling.{Tells, pick};
ghost use Rattle.trees.specs.Tree.{most_of_entry};
ghost use Rattle.derivations.specs.Derivations.{Tight};
ghost use Rattle.derivations.specs.Ways.{weigh};
ghost use Rattle.derivations.specs.declared.Parts.TheVariants.{One, Two};
ghost use Rattle.items.specs.Counts.{weigh_by};

use crate::{Counts, weight};
use trees::entries::{MOST, entry};

pub(crate) fn of_factor(generators: usize, j: usize) -> usize
    ensures { (result ≡ pick (ltb j generators) 1 0) × (result ≤ most_of_entry) }
{
    usize::from(j < generators)
}

// The entry of item (p + 1, y).
pub(crate) fn in_table(counts: &Counts, p: usize, y: usize) -> usize
    ensures { (result ≡ weigh_by counts.now (suc p) y) × (result ≤ most_of_entry) }
{
    if MOST < counts.count || MOST < counts.letters {
        return 0;
    }
    if counts.count <= y || counts.count + counts.letters <= p {
        return 0;
    }
    entry(counts.entries, p * counts.count + y)
}

pub(crate) fn one_is_tight(counts: &Counts, x: usize, y: usize, a: usize, b: usize) -> bool
    ensures { Tells result (Tight (weigh_by counts.now) x y (One a b)) }
{
    if x <= a {
        return false;
    }
    let one = weight(counts, a, b);
    one != 0 && one == weight(counts, x, y)
}

pub(crate) fn two_are_tight(
    counts: &Counts,
    x: usize,
    y: usize,
    a: usize,
    b: usize,
    c: usize,
    d: usize,
) -> bool
    ensures { Tells result (Tight (weigh_by counts.now) x y (Two a b c d)) }
{
    let front = weight(counts, a, b);
    if front == 0 {
        return false;
    }
    let behind = weight(counts, c, d);
    behind != 0 && front + behind == weight(counts, x, y)
}
