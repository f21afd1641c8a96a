// The generators of a list, reduced one after the other. A list is here one that has passed questions 7 to 10.
ghost use Rattle.std.specs.Prelude.{◌≡◌, ◌+◌, ◌≤◌, length};
ghost use Rattle.std.proofs.Math.Seq.{slice, paste};
ghost use Rattle.limits.specs.Limits.{most_letters, most_of_list};
ghost use Rattle.words.specs.Word.{nf};
ghost use Rattle.words.specs.Bytes.{bytes as bytes_of, word};
ghost use Rattle.slices.specs.Slices.{overwritten};
ghost use Rattle.products.specs.Product.{generators};
ghost use Rattle.lists.specs.Calls.{HandsOver};
ghost use Rattle.lists.specs.Reducing.{Checked, AllLetters, WritesForms, of_room};

use limits::{GENERATOR_LETTERS, LIST_LETTERS};
use words::{Letters, Refusal};

// Writes the normal form of the generator that runs from one end up to another to `out` from the place `at` on.
fn normal_form(bytes: &[u8], from: usize, end: usize, out: &mut [u8], at: usize) -> Letters
    requires from_le_end { from ≤ end }
    requires end_in_bounds { end ≤ length bytes.now }
    requires all_letters { AllLetters bytes.now }
    requires bytes_len_bound { length bytes.now ≤ most_letters }
    requires most_letters_in_bounds { at + most_letters ≤ length out.old }
    ensures result_value { result.0 ≡ length (nf (word (slice from end bytes.now))) }
    ensures out_after { out.new ≡ paste out.old at (bytes_of (nf (word (slice from end bytes.now)))) result.0 }
{
    words::reduce(&bytes[from..end], &mut out[at..])
        .unwrap()
        .kept
}

// Writes the normal forms of the generators one behind the other to the front of `out`, which has room for one that is too long behind them, and their ends to the
// front of `out_ends`. The answer is the sum of their lengths; or the no of question 11, and then some forms may stand in the slices.
pub(crate) fn write_forms(
    bytes: &[u8],
    ends: &[u16],
    out: &mut [u8],
    out_ends: &mut [u16],
) -> Result<Letters, Refusal>
    requires checked { Checked bytes.now ends.now }
    requires most_letters_in_bounds { most_of_list + most_letters ≤ length out.old }
    requires ends_in_bounds { length ends.now ≤ length out_ends.old }
    ensures { WritesForms (generators bytes.now ends.now) result out.new out_ends.new }
{
    let mut sum = Letters(0);
    let mut from = 0;
    for (i, end) in ends.iter().enumerate() {
        let end = usize::from(*end);
        let len = normal_form(bytes, from, end, out, usize::from(sum.0));
        if GENERATOR_LETTERS < len.0 || LIST_LETTERS < sum.0 + len.0 {
            return Err(Refusal::GeneratorTooLong(i));
        }
        sum = Letters(sum.0 + len.0);
        out_ends[i] = sum.0;
        from = end;
    }
    Ok(sum)
}

// Writes a list's letters and ends to the fronts of slices.
pub(crate) fn copy_list(letters: &[u8], ends: &[u16], out: &mut [u8], out_ends: &mut [u16])
    requires letters_in_bounds { length letters.now ≤ length out.old }
    requires ends_in_bounds { length ends.now ≤ length out_ends.old }
    ensures out_after { out.new ≡ overwritten letters.now out.old }
    ensures out_ends_after { out_ends.new ≡ overwritten ends.now out_ends.old }
{
    out[..letters.len()].copy_from_slice(letters);
    out_ends[..ends.len()].copy_from_slice(ends);
}

// Writes a list's letters and ends to the fronts of lent slices, where there is room for both; else changes nothing. The answer says which.
pub(crate) fn hand_over(
    letters: &[u8],
    ends: &[u16],
    out: &mut [u8],
    out_ends: &mut [u16],
) -> Result<(), Refusal>
    ensures { HandsOver (of_room letters.now ends.now out.old out_ends.old) (λ asked. asked) letters.now ends.now
        out.old out_ends.old result out.new out_ends.new }
{
    if out.len() < letters.len() || out_ends.len() < ends.len() {
        return Err(Refusal::OutputTooShort);
    }
    copy_list(letters, ends, out, out_ends);
    Ok(())
}
