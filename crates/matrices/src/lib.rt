// Elements of the modular group as 2 by 2 matrices of determinant 1, up to sign: a word turned into its matrix, and a matrix into its
// normal form. Both calls take any input whatever.
#![tactic(auto)]

mod ending;
mod forming;
mod questions;
mod sign;
mod spelling;
mod times_r;
mod times_s;

ghost use Rattle.std.specs.Prelude.{◌≡◌, ◌≤◌, length};
ghost use Rattle.words.specs.Calls.{written, length_or};
ghost use Rattle.matrices.specs.Entries.{matrix};
ghost use Rattle.matrices.specs.Calls.{TurnsWord, TurnsMatrix};
ghost use Rattle.matrices.specs.Spelling.{form_room, of_length};

use limits::{FORM_ROOM, WORD_LETTERS};
use words::{Letters, Refusal};

// (a b; c d)
#[derive(Clone, Copy, Debug, PartialEq, Eq)]
pub struct Matrix {
    pub a: i64,
    pub b: i64,
    pub c: i64,
    pub d: i64,
}

// Room for the longest normal form that question 12 lets pass and one part more, by which a longer one is known.
const SPELLED_ROOM: usize = FORM_ROOM + 2;

// The matrix of `word`. The reduction puts questions 8 and 10; its own question 14 is then answered yes, since `form` is as long as a word can be.
pub fn word_to_matrix(word: &[u8]) -> Result<Matrix, Refusal>
    ensures { TurnsWord word.now result }
{
    let mut form = [0u8; WORD_LETTERS];
    let len = words::reduce(word, &mut form)?.kept.0 as usize;
    forming::of_normal_form(&form[..len])
}

// Questions 12 and 14 of a normal form, which is then written to the front of `out`.
fn write_out(form: &[u8], out: &mut [u8]) -> Result<Letters, Refusal>
    requires { length form.now ≤ form_room }
    ensures value { result ≡ length_or (of_length (length form.now) (length out.old)) (length form.now) }
    ensures out_after { out.new ≡ written (of_length (length form.now) (length out.old)) form.now out.old }
{
    let len = form.len();
    if FORM_ROOM < len {
        return Err(Refusal::NormalFormTooLong);
    }
    if out.len() < FORM_ROOM {
        return Err(Refusal::OutputTooShort);
    }
    out[..len].copy_from_slice(form);
    Ok(Letters(len as u16))
}

// Writes the normal form of `m` to the front of `out`.
pub fn matrix_to_word(m: Matrix, out: &mut [u8]) -> Result<Letters, Refusal>
    ensures { TurnsMatrix (matrix m) out.old result out.new }
{
    questions::of_entries(m)?;
    let mut form = [0u8; SPELLED_ROOM];
    let at = spelling::spell(m, &mut form);
    write_out(&form[at..], out)
}
