// A list and a target, made ready for a search: both are reduced, and the tree of the generators' suffixes is built. This is where every call about a list and
// one target begins; it puts questions 7 to 11.
#![tactic(auto)]

mod fitting;
mod posing;
pub mod room;

ghost use Rattle.queries.specs.Posing.{Poses, PosesForms};

use crate::fitting::has_room;
use words::{Letters, Refusal};

// What is ready: m and t, which are the letters of the reduced list and of the target's form, and the number of the tree's nodes.
#[derive(Clone, Copy, Debug, PartialEq, Eq)]
pub struct Posed {
    pub m: Letters,
    pub t: Letters,
    pub count: usize,
}

// Writes the target's normal form to the front of `form`, and the tree of the reduced list to the fronts of the five slices behind it. A refusal changes
// nothing. A lent slice without room for all that the questions let pass is refused like a result's.
pub fn pose(
    bytes: &[u8],
    ends: &[u16],
    target: &[u8],
    form: &mut [u8],
    letters: &mut [u8],
    rests: &mut [u16],
    children_r: &mut [u16],
    children_s: &mut [u16],
    wholes: &mut [u16],
) -> Result<Posed, Refusal>
    ensures { Poses bytes.now ends.now target.now result
        (record {
          form = form.old;
          tree = record {
            letters = letters.old;
            rests = rests.old;
            children_r = children_r.old;
            children_s = children_s.old;
            wholes = wholes.old;
          };
        })
        (record {
          form = form.new;
          tree = record {
            letters = letters.new;
            rests = rests.new;
            children_r = children_r.new;
            children_s = children_s.new;
            wholes = wholes.new;
          };
        }) }
{
    if !has_room(
        limits::LIST_ROOM,
        limits::GENERATORS,
        form.len(),
        letters.len(),
        rests.len(),
        children_r.len(),
        children_s.len(),
        wholes.len(),
    ) {
        return Err(Refusal::OutputTooShort);
    }
    lists::of_list(bytes, ends, target)?;
    posing::pose_list(
        bytes, ends, target, form, letters, rests, children_r, children_s, wholes,
    )
}

// The same for a list that is reduced already, with or without its inverses, and a target that has passed questions 8 and 10: no question is put.
pub fn pose_reduced(
    list_letters: &[u8],
    list_ends: &[u16],
    target: &[u8],
    form: &mut [u8],
    letters: &mut [u8],
    rests: &mut [u16],
    children_r: &mut [u16],
    children_s: &mut [u16],
    wholes: &mut [u16],
) -> Result<Posed, Refusal>
    ensures { PosesForms list_letters.now list_ends.now target.now result
        (record {
          form = form.old;
          tree = record {
            letters = letters.old;
            rests = rests.old;
            children_r = children_r.old;
            children_s = children_s.old;
            wholes = wholes.old;
          };
        })
        (record {
          form = form.new;
          tree = record {
            letters = letters.new;
            rests = rests.new;
            children_r = children_r.new;
            children_s = children_s.new;
            wholes = wholes.new;
          };
        }) }
{
    if !has_room(
        list_letters.len(),
        list_ends.len(),
        form.len(),
        letters.len(),
        rests.len(),
        children_r.len(),
        children_s.len(),
        wholes.len(),
    ) {
        return Err(Refusal::OutputTooShort);
    }
    posing::pose_forms(
        list_letters,
        list_ends,
        target,
        form,
        letters,
        rests,
        children_r,
        children_s,
        wholes,
    )
}
