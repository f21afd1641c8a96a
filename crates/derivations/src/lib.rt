// What a series is made of, one behind the other, is an item: a factor, a pair of states, or a row of the target at a state. The mathematics is in specs/ and
// proofs/; here is only how items and their parts are told.
#![tactic(auto)]

use trees::SuffixTree;

// All that items are told by (`World` of specs/Ways.antt): the tree of a list, the target, and the table of counts. Nothing is asked of the slices.
#[derive(Clone, Copy)]
pub struct Setting<'a> {
    pub tree: SuffixTree<'a>,
    pub target: &'a [u8],
    pub counts: &'a [u16],
}

// An item is two numbers (specs/Ways.antt). Its parts in one way: one other item that has the same series, or two, one behind the other.
#[derive(Clone, Copy)]
pub enum Parts {
    One(usize, usize),
    Two(usize, usize, usize, usize),
    Nothing,
}
