// The normal form of a matrix, part by part from the right, written from the end of an array towards its front.
ghost use Rattle.std.specs.Prelude.{◌≡◌, ◌∷◌, ◌++◌, ◌+◌, ◌≤◌, ◌<◌, ◌^◌, pos, length, drop};
ghost use Rattle.words.specs.Bytes.{bytes};
ghost use Rattle.unimodular.specs.Matrix.{determinant};
ghost use Rattle.unimodular.proofs.Descent.{size, part, before as before_part};
ghost use Rattle.matrices.specs.Entries.{matrix};
ghost use Rattle.matrices.specs.Spelling.{form_room, number, Spelled};

use crate::{Matrix, ending};
use words::Ending;

// A letter goes before what stands from `at` on.
fn prepend(form: &mut [u8], at: usize, byte: u8) -> usize
    requires { (0 < at) × (at ≤ length form.old) }
    ensures { (result + 1 ≡ at) × (drop result form.new ≡ byte ∷ drop at form.old) }
{
    form[at - 1] = byte;
    at - 1
}

// The part that an ending stands for goes before what stands from `at` on.
fn prepend_part(form: &mut [u8], at: usize, ending: Ending) -> usize
    requires { (1 < at) × (at ≤ length form.old) }
    ensures { (result + length (part (number ending)) ≡ at) × (drop result form.new ≡ bytes (part (number ending)) ++ drop at form.old) }
{
    match ending {
        Ending::Nothing => at,
        Ending::R => prepend(form, at, b'R'),
        Ending::S => prepend(form, at, b'S'),
        Ending::SS => {
            let once = prepend(form, at, b'S');
            prepend(form, once, b'S')
        }
    }
}

// The matrix without its last part, up to sign: R is its own inverse, and S and SS are each other's.
fn without_last_part(m: Matrix, ending: Ending) -> Matrix
    requires { size (matrix m) ≤ 2 ^ 43 }
    ensures { matrix result ≡ before_part (number ending) (matrix m) }
{
    match ending {
        Ending::Nothing => m,
        Ending::R => m.times_r(),
        Ending::S => m.times_s().times_s(),
        Ending::SS => m.times_s(),
    }
}

// The normal form stands from the returned index on, unless more letters stand there than question 12 lets pass: then there was no need to go on.
pub(crate) fn spell(m: Matrix, form: &mut [u8]) -> usize
    requires m_value { determinant (matrix m) ≡ pos 1 }
    requires m_bound { size (matrix m) ≤ 2 ^ 43 }
    requires form_len { length form.old ≡ form_room }
    ensures { Spelled (matrix m) form.new result }
{
    let mut left = m;
    let mut at = form.len();
    while 1 < at {
        let last = ending::ending(left);
        if last == Ending::Nothing {
            return at;
        }
        at = prepend_part(form, at, last);
        left = without_last_part(left, last);
    }
    at
}
