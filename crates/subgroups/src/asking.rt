// The questions that are asked once the list, with its inverses, and the target are reduced.
ghost use Rattle.std.specs.Prelude.{◌≡◌};
ghost use Rattle.refusals.specs.Questions.{question14};
ghost use Rattle.limits.specs.Limits.{inverses_slice};
ghost use Rattle.subgroups.specs.Questions.{of_signed_sizes};

use words::{Factors, Letters, Refusal};

// Question 14 for the inverse slice, by its length.
pub(crate) fn of_inverses(inverses: usize) -> Result<(), Refusal>
    ensures { result ≡ question14 inverses_slice inverses }
{
    if inverses < limits::INVERSES_SLICE {
        return Err(Refusal::OutputTooShort);
    }
    Ok(())
}

// Questions 12 to 15. `first`, `second`, `witness` and `inverses` are the lengths of the lent slices.
pub(crate) fn of_signed_sizes(
    m: Letters,
    t: Letters,
    n: Factors,
    first: usize,
    second: usize,
    witness: usize,
    inverses: usize,
) -> Result<(), Refusal>
    ensures { result ≡ of_signed_sizes m.0 t.0 n.0 first second witness inverses }
{
    sizes::of_form(t)?;
    sizes::of_bound(n, witness)?;
    of_inverses(inverses)?;
    sizes::of_tables(m, t, first, second)
}
