// Items that are still to be spelled, on a stack, the top first. Each weighs 1 or more, and together no more than there are factors, so that 1,000 places are
// enough. There is no recursion, since its depth would grow with the counts.
ghost use Rattle.std.specs.Prelude.{◌≡◌, List, [], ◌∷◌, ◌++◌, ℕ, ◌+◌, ◌≤◌, ◌<◌, length, drop};
ghost use Rattle.limits.specs.Limits.{most_factors};
ghost use Rattle.trees.specs.Tree.{most_of_entry};
ghost use Rattle.witness.specs.Stacks.{stacked, items_of, Entries};

use derivations::Parts;
use std::marker::Model;

#[derive(Drop)]
pub(crate) struct Stack {
    xs: [u16; limits::WITNESS_ROOM],
    ys: [u16; limits::WITNESS_ROOM],
    height: usize,
}

impl Model for Stack {
    ghost Value = { List (ℕ × ℕ) };

    ghost view = { λ s. stacked s.xs s.ys s.height };

    ghost invariant = { λ s. s.height ≤ most_factors };
}

impl Stack {
    pub(crate) fn new() -> Stack
        ensures { result ≡ [] }
    {
        Stack {
            xs: [0; limits::WITNESS_ROOM],
            ys: [0; limits::WITNESS_ROOM],
            height: 0,
        }
    }

    pub(crate) fn height(&self) -> usize
        ensures { result ≡ length self.now }
    {
        self.height
    }

    pub(crate) fn clear(&mut self)
        ensures { self.new ≡ [] }
    {
        self.height = 0;
    }

    // The item on top.
    pub(crate) fn top(&self) -> (usize, usize)
        requires { 0 < length self.now }
        ensures { self.now ≡ result ∷ drop 1 self.now }
    {
        let below = self.height - 1;
        (usize::from(self.xs[below]), usize::from(self.ys[below]))
    }

    // The item on top, taken off.
    pub(crate) fn pop(&mut self) -> (usize, usize)
        requires { 0 < length self.old }
        ensures { self.old ≡ result ∷ self.new }
    {
        self.height -= 1;
        (
            usize::from(self.xs[self.height]),
            usize::from(self.ys[self.height]),
        )
    }

    pub(crate) fn push(&mut self, x: usize, y: usize)
        requires { (length self.old < most_factors) × (x ≤ most_of_entry) × (y ≤ most_of_entry) }
        ensures { self.new ≡ (x, y) ∷ self.old }
    {
        self.xs[self.height] = x as u16;
        self.ys[self.height] = y as u16;
        self.height += 1;
    }

    // The first of two parts comes to lie on top.
    pub(crate) fn push_parts(&mut self, p: Parts)
        requires { (length (items_of p) + length self.old ≤ most_factors) × Entries (items_of p) }
        ensures { self.new ≡ items_of p ++ self.old }
    {
        match p {
            Parts::One(a, b) => self.push(a, b),
            Parts::Two(a, b, c, d) => {
                self.push(c, d);
                self.push(a, b);
            }
            Parts::Nothing => {}
        }
    }
}
