// The inverses of a reduced list's generators, reduced and written behind it. A reduced list is here one whose generators have passed questions 7 and 11.
ghost use Rattle.std.specs.Prelude.{◌≡◌, ◌+◌, ◌-◌, ◌*◌, ◌≤◌, length};
ghost use Rattle.std.proofs.Math.Seq.{slice, paste};
ghost use Rattle.limits.specs.Limits.{most_letters, most_of_generator, most_signed_generators, most_of_signed_list};
ghost use Rattle.words.specs.Word.{nf, inverse};
ghost use Rattle.words.specs.Bytes.{bytes as bytes_of, word};
ghost use Rattle.lists.specs.Reducing.{AllLetters, SomeReduced, WritesSigned, HandsSigned};

use crate::Lengths;
use crate::reducing::{copy_list, hand_over};
use limits::{GENERATOR_LETTERS, SIGNED_GENERATORS, SIGNED_ROOM};
use words::{Letters, Refusal};

// Writes the normal form of the inverse of the generator that runs from one end up to another to `out` from the place `at` on.
fn inverse_form(letters: &[u8], from: usize, end: usize, out: &mut [u8], at: usize) -> Letters
    requires from_le_end { from ≤ end }
    requires end_in_bounds { end ≤ length letters.now }
    requires all_letters { AllLetters letters.now }
    requires letters_len_bound { length letters.now ≤ most_letters }
    requires from_in_bounds { at + 2 * (end - from) ≤ length out.old }
    ensures result_value { result.0 ≡ length (nf (inverse (word (slice from end letters.now)))) }
    ensures out_after { out.new ≡ paste out.old at (bytes_of (nf (inverse (word (slice from end letters.now))))) result.0 }
{
    words::invert(&letters[from..end], &mut out[at..]).unwrap()
}

// Writes a reduced list to the fronts of `out` and `out_ends`, and the normal forms of its generators' inverses behind it. The answer is how many letters they all
// have. There is room for an inverse's letters before they are reduced.
fn write_signed(letters: &[u8], ends: &[u16], out: &mut [u8], out_ends: &mut [u16]) -> Letters
    requires some_reduced { SomeReduced letters.now ends.now }
    requires most_of_generator_in_bounds { most_of_signed_list + 2 * most_of_generator ≤ length out.old }
    requires most_signed_generators_in_bounds { most_signed_generators ≤ length out_ends.old }
    ensures { WritesSigned letters.now ends.now result.0 out.new out_ends.new }
{
    copy_list(letters, ends, out, out_ends);
    let mut sum = Letters(letters.len() as u16);
    let mut from = 0;
    for (i, end) in ends.iter().enumerate() {
        let end = usize::from(*end);
        let len = inverse_form(letters, from, end, out, usize::from(sum.0));
        sum = Letters(sum.0 + len.0);
        out_ends[ends.len() + i] = sum.0;
        from = end;
    }
    sum
}

// Room for the letters of a reduced list and its inverses, and for one inverse that is still to be reduced.
const FORMS: usize = SIGNED_ROOM + 2 * (GENERATOR_LETTERS as usize);

// Hands a reduced list over with its inverses. The forms are first written to slices of its own: a refusal changes no lent one.
pub(crate) fn hand_over_signed(
    letters: &[u8],
    ends: &[u16],
    out: &mut [u8],
    out_ends: &mut [u16],
) -> Result<Lengths, Refusal>
    requires { SomeReduced letters.now ends.now }
    ensures { HandsSigned letters.now ends.now out.old out_ends.old result out.new out_ends.new }
{
    let mut forms = [0; FORMS];
    let mut form_ends = [0; SIGNED_GENERATORS];
    let all = write_signed(letters, ends, &mut forms, &mut form_ends);
    let len = usize::from(all.0);
    let count = 2 * ends.len();
    hand_over(&forms[..len], &form_ends[..count], out, out_ends)?;
    Ok(Lengths {
        given: Letters(letters.len() as u16),
        all,
    })
}
