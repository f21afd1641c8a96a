// The questions at the door that concern matrices. `specs/Questions.antt` has each question.
ghost use Rattle.std.specs.Prelude.{◌≡◌};
ghost use Rattle.unimodular.specs.Matrix.{determinant as det};
ghost use Rattle.refusals.specs.Questions.{asks, passed};
ghost use Rattle.matrices.specs.Entries.{matrix};
ghost use Rattle.matrices.specs.Questions.{in_range, question5, question6, of_entries};

use crate::Matrix;
use words::Refusal;

// Question 5: the largest entry, and the smallest.
const LARGEST: i64 = 2147483647;

const SMALLEST: i64 = -LARGEST;

fn in_range(x: i64) -> bool
    ensures { result ≡ in_range x }
{
    SMALLEST <= x && x <= LARGEST
}

// Question 5 of the entry at one place.
fn of_entry(x: i64, place: usize) -> Result<(), Refusal>
    ensures { result ≡ asks (in_range x) (Refusal.EntryTooLarge place) }
{
    if in_range(x) {
        return Ok(());
    }
    Err(Refusal::EntryTooLarge(place))
}

// Question 5: each entry is in that range.
pub(crate) fn of_range(m: Matrix) -> Result<(), Refusal>
    ensures { result ≡ question5 (matrix m) }
{
    of_entry(m.a, 0)?;
    of_entry(m.b, 1)?;
    of_entry(m.c, 2)?;
    of_entry(m.d, 3)
}

// ad - bc, which fits in 64 bits where question 5 is answered yes.
fn determinant(m: Matrix) -> i64
    requires { question5 (matrix m) ≡ passed }
    ensures { result ≡ det (matrix m) }
{
    m.a * m.d - m.b * m.c
}

// Question 6: the determinant is 1.
fn of_determinant(m: Matrix) -> Result<(), Refusal>
    requires { question5 (matrix m) ≡ passed }
    ensures { result ≡ question6 (matrix m) }
{
    if determinant(m) != 1 {
        return Err(Refusal::DeterminantNotOne);
    }
    Ok(())
}

// Questions 5 and 6.
pub(crate) fn of_entries(m: Matrix) -> Result<(), Refusal>
    ensures { result ≡ of_entries (matrix m) }
{
    of_range(m)?;
    of_determinant(m)
}
