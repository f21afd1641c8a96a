// The sizes of a verdict: the side of its tables, the questions that are asked once the list and the target are reduced (12 to 15), and the tables left
// zeroed. Both tables are asked about and zeroed by the same functions.
#![tactic(auto)]

ghost use Rattle.std.specs.Prelude.{◌≡◌, ◌*◌};
ghost use Rattle.refusals.specs.Questions.{question12};
ghost use Rattle.sizes.specs.Questions.{side, question15, of_bound, of_tables, of_sizes};
ghost use Rattle.sizes.specs.Zeroing.{Zeroes};

use words::{Factors, Letters, Refusal};

// The side of the tables that a verdict asks for, from m and t.
pub fn side(m: Letters, t: Letters) -> usize
    ensures { result ≡ side m.0 t.0 }
{
    usize::from(m.0) + 2 * usize::from(t.0) + 1
}

// How many entries each table must have.
fn square(m: Letters, t: Letters) -> usize
    ensures { result ≡ side m.0 t.0 * side m.0 t.0 }
{
    let q = side(m, t);
    q * q
}

// Question 12, of the length of a target's normal form.
pub fn of_form(t: Letters) -> Result<(), Refusal>
    ensures { result ≡ question12 t.0 }
{
    if limits::FORM_LETTERS < t.0 {
        return Err(Refusal::NormalFormTooLong);
    }
    Ok(())
}

// Questions 13 and 14, where `witness` is the length of the lent witness.
pub fn of_bound(n: Factors, witness: usize) -> Result<(), Refusal>
    ensures { result ≡ of_bound n.0 witness }
{
    if limits::BOUND < n.0 {
        return Err(Refusal::BoundTooLarge);
    }
    if witness < usize::from(n.0) {
        return Err(Refusal::OutputTooShort);
    }
    Ok(())
}

// Question 15 of one table, by its length.
fn of_table(m: Letters, t: Letters, table: usize) -> Result<(), Refusal>
    ensures { result ≡ question15 (side m.0 t.0) table }
{
    if table < square(m, t) {
        return Err(Refusal::TableTooShort);
    }
    Ok(())
}

// Question 15, where `first` and `second` are the lengths of the lent tables.
pub fn of_tables(m: Letters, t: Letters, first: usize, second: usize) -> Result<(), Refusal>
    ensures { result ≡ of_tables (side m.0 t.0) first second }
{
    of_table(m, t, first)?;
    of_table(m, t, second)
}

// Questions 12 to 15. `first`, `second` and `witness` are the lengths of the lent slices.
pub fn of_sizes(
    m: Letters,
    t: Letters,
    n: Factors,
    first: usize,
    second: usize,
    witness: usize,
) -> Result<(), Refusal>
    ensures { result ≡ of_sizes m.0 t.0 n.0 first second witness }
{
    of_form(t)?;
    of_bound(n, witness)?;
    of_tables(m, t, first, second)
}

// The first q * q entries of a table become 0, and the others remain; a table that has fewer is left as it is.
pub fn zero_table(table: &mut [u16], m: Letters, t: Letters)
    ensures { Zeroes (side m.0 t.0) table.old table.new }
{
    let count = square(m, t);
    if count <= table.len() {
        table[..count].fill(0);
    }
}
