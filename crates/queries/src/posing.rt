// From a list and a target that have passed questions 7 to 10 to the form and the tree: the list is reduced, then the target, and then the tree is built.
ghost use Rattle.std.specs.Prelude.{◌≡◌, length};
ghost use Rattle.limits.specs.Limits.{most_generators, most_of_list};
ghost use Rattle.refusals.specs.Questions.{passed, of_letters};
ghost use Rattle.lists.specs.Questions.{of_list};
ghost use Rattle.queries.specs.Posing.{ReducedList, TreeRoom, Room, Plants, PosesReduced, PosesList};

use crate::Posed;
use words::{Letters, Refusal};

// Builds the tree of a reduced list, beside a form of t letters. It fits, since the lent slices have room.
fn plant(
    list_letters: &[u8],
    list_ends: &[u16],
    t: Letters,
    letters: &mut [u8],
    rests: &mut [u16],
    children_r: &mut [u16],
    children_s: &mut [u16],
    wholes: &mut [u16],
) -> Result<Posed, Refusal>
    requires { TreeRoom (length list_letters.now) (length list_ends.now) (length letters.old) (length rests.old) (length children_r.old) (length children_s.old) (length wholes.old) }
    ensures { ReducedList list_letters.now list_ends.now
        → Plants list_letters.now list_ends.now t.0 result
        (record {
          letters = letters.old;
          rests = rests.old;
          children_r = children_r.old;
          children_s = children_s.old;
          wholes = wholes.old;
        })
        (record {
          letters = letters.new;
          rests = rests.new;
          children_r = children_r.new;
          children_s = children_s.new;
          wholes = wholes.new;
        }) }
{
    let m = Letters(list_letters.len() as u16);
    match trees::build(
        list_letters,
        list_ends,
        letters,
        rests,
        children_r,
        children_s,
        &mut wholes[..list_ends.len()],
    ) {
        Ok(count) => Ok(Posed { m, t, count }),
        Err(_) => Err(Refusal::TooManyLetters),
    }
}

// The same with the target reduced before. One that has passed questions 8 and 10 is not refused, since there is room for its form.
pub(crate) fn pose_forms(
    list_letters: &[u8],
    list_ends: &[u16],
    target: &[u8],
    form: &mut [u8],
    letters: &mut [u8],
    rests: &mut [u16],
    children_r: &mut [u16],
    children_s: &mut [u16],
    wholes: &mut [u16],
) -> Result<Posed, Refusal>
    requires { Room (length list_letters.now) (length list_ends.now) (length form.old) (length letters.old) (length rests.old) (length children_r.old) (length children_s.old) (length wholes.old) }
    ensures { ReducedList list_letters.now list_ends.now → of_letters target.now ≡ passed
        → PosesReduced list_letters.now list_ends.now target.now result
        (record {
          form = form.old;
          tree = record {
            letters = letters.old;
            rests = rests.old;
            children_r = children_r.old;
            children_s = children_s.old;
            wholes = wholes.old;
          };
        })
        (record {
          form = form.new;
          tree = record {
            letters = letters.new;
            rests = rests.new;
            children_r = children_r.new;
            children_s = children_s.new;
            wholes = wholes.new;
          };
        }) }
{
    let account = words::reduce(target, form)?;
    plant(
        list_letters,
        list_ends,
        account.kept,
        letters,
        rests,
        children_r,
        children_s,
        wholes,
    )
}

// The same with the list reduced before, which puts question 11.
pub(crate) fn pose_list(
    bytes: &[u8],
    ends: &[u16],
    target: &[u8],
    form: &mut [u8],
    letters: &mut [u8],
    rests: &mut [u16],
    children_r: &mut [u16],
    children_s: &mut [u16],
    wholes: &mut [u16],
) -> Result<Posed, Refusal>
    requires target_value { of_list bytes.now ends.now target.now ≡ passed }
    requires room { Room most_of_list most_generators (length form.old) (length letters.old) (length rests.old) (length children_r.old) (length children_s.old) (length wholes.old) }
    ensures { PosesList bytes.now ends.now target.now result
        (record {
          form = form.old;
          tree = record {
            letters = letters.old;
            rests = rests.old;
            children_r = children_r.old;
            children_s = children_s.old;
            wholes = wholes.old;
          };
        })
        (record {
          form = form.new;
          tree = record {
            letters = letters.new;
            rests = rests.new;
            children_r = children_r.new;
            children_s = children_s.new;
            wholes = wholes.new;
          };
        }) }
{
    let mut list_letters = [0u8; limits::LIST_ROOM];
    let mut list_ends = [0u16; limits::GENERATORS];
    let m = lists::reduce_list(bytes, ends, &mut list_letters, &mut list_ends)?;
    pose_forms(
        &list_letters[..usize::from(m.0)],
        &list_ends[..ends.len()],
        target,
        form,
        letters,
        rests,
        children_r,
        children_s,
        wholes,
    )
}
