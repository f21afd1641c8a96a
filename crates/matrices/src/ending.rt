// The tests on a matrix's entries that say what its normal form ends with.
ghost use Rattle.std.specs.Prelude.{◌≡◌};
ghost use Rattle.unimodular.proofs.Descent.{ending as ending_of, is_unit, signs_agree, at_least, columns_agree, first_column_larger};
ghost use Rattle.matrices.specs.Entries.{matrix};
ghost use Rattle.matrices.specs.Spelling.{number};

use crate::Matrix;
use words::Ending;

// Neither is negative, or neither is positive.
fn signs_agree(x: i64, y: i64) -> bool
    ensures { result ≡ signs_agree x y }
{
    (0 <= x && 0 <= y) || (x <= 0 && y <= 0)
}

// The first is at least the second, without their signs.
fn at_least(x: i64, y: i64) -> bool
    ensures { result ≡ at_least x y }
{
    y.unsigned_abs() <= x.unsigned_abs()
}

fn is_unit(m: Matrix) -> bool
    ensures { result ≡ is_unit (matrix m) }
{
    m.b == 0 && m.c == 0
}

// In each row.
fn columns_agree(m: Matrix) -> bool
    ensures { result ≡ columns_agree (matrix m) }
{
    signs_agree(m.a, m.b) && signs_agree(m.c, m.d)
}

fn first_column_larger(m: Matrix) -> bool
    ensures { result ≡ first_column_larger (matrix m) }
{
    at_least(m.a, m.b) && at_least(m.c, m.d)
}

pub(crate) fn ending(m: Matrix) -> Ending
    ensures { number result ≡ ending_of (matrix m) }
{
    if is_unit(m) {
        return Ending::Nothing;
    }
    if columns_agree(m) {
        return Ending::R;
    }
    if first_column_larger(m) {
        return Ending::S;
    }
    Ending::SS
}
