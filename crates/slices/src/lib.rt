// Slices that are lent: the copy of one into another.
#![tactic(auto)]

pub mod copying;
