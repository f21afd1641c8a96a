// Entries of slices of 16-bit numbers: a tree, its table and the rows of a target are kept in such slices.
ghost use Rattle.std.specs.Prelude.{true, ◌≡◌, ◌≤◌, length};
ghost use Rattle.refusals.specs.Telling.{Tells};
ghost use Rattle.trees.specs.Tree.{at, most_of_entry};
ghost use Rattle.trees.specs.Bounds.{AtMost, AllAtMost};

// The most that an entry is.
pub const MOST: usize = u16::MAX as usize;

// The number at a place; 0 where the slice has no such place.
pub fn entry(s: &[u16], p: usize) -> usize
    ensures { (result ≡ at s.now p) × (result ≤ most_of_entry) }
{
    if p < s.len() {
        return usize::from(s[p]);
    }
    0
}

// Whether every entry so far was at most `most`, and this one is too.
fn at_most_too(so_far: bool, entry: u16, most: u16) -> bool
    ensures { Tells result ((so_far ≡ true) × (entry ≤ most)) }
{
    entry <= most && so_far
}

// No early end, so that the loop runs on many entries at once.
fn front_at_most(s: &[u16], many: usize, most: u16) -> bool
    requires { many ≤ length s.now }
    ensures { Tells result (AtMost most s.now many) }
{
    let mut all = true;
    for x in &s[..many] {
        all = at_most_too(all, *x, most);
    }
    all
}

// Whether there are so many entries, and each of them is at most `most`: what a total face asks of the slices that are lent to it.
pub fn all_at_most(s: &[u16], many: usize, most: u16) -> bool
    ensures { Tells result (AllAtMost most s.now many) }
{
    many <= s.len() && front_at_most(s, many, most)
}
