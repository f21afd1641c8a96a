// A normal form turned into its matrix.
ghost use Rattle.std.specs.Prelude.{◌≡◌, ◌≤◌, ◌^◌, length};
ghost use Rattle.limits.specs.Limits.{most_of_form};
ghost use Rattle.words.specs.Word.{Normal};
ghost use Rattle.words.specs.Bytes.{letter, word as word_of};
ghost use Rattle.unimodular.specs.Matrix.{times, matrix_of_letter, matrix_of, signed};
ghost use Rattle.unimodular.proofs.Descent.{size};
ghost use Rattle.matrices.specs.Entries.{matrix};
ghost use Rattle.matrices.specs.Calls.{matrix_or};
ghost use Rattle.matrices.specs.Forming.{of_form};

use crate::{Matrix, questions, sign};
use limits::FORM_ROOM;
use words::Refusal;

// A matrix multiplied on the right by a letter's matrix.
fn times_letter(m: Matrix, byte: u8) -> Matrix
    requires { size (matrix m) ≤ 2 ^ 44 }
    ensures { matrix result ≡ times (matrix m) (matrix_of_letter (letter byte)) }
{
    if byte == b'R' {
        return m.times_r();
    }
    m.times_s()
}

// The product of the letters' matrices, from the left, place by place. The entries of each prefix's matrix are far within 64 bits, as they need not
// be for a word that is not reduced.
fn product(form: &[u8]) -> Matrix
    requires normal { Normal (word_of form.now) }
    requires form_len_bound { length form.now ≤ most_of_form }
    ensures { matrix result ≡ matrix_of (word_of form.now) }
{
    let mut m = Matrix {
        a: 1,
        b: 0,
        c: 0,
        d: 1,
    };
    for i in 0..form.len() {
        m = times_letter(m, form[i]);
    }
    m
}

// Questions 12 and 16, and then the matrix.
pub(crate) fn of_normal_form(form: &[u8]) -> Result<Matrix, Refusal>
    requires { Normal (word_of form.now) }
    ensures { result ≡ matrix_or (of_form (word_of form.now)) (signed (matrix_of (word_of form.now))) }
{
    if FORM_ROOM < form.len() {
        return Err(Refusal::NormalFormTooLong);
    }
    let m = sign::with_sign(product(form));
    if questions::of_range(m).is_err() {
        return Err(Refusal::MatrixTooLarge);
    }
    Ok(m)
}
