// The sign of a matrix. A matrix and its negative are the same element.
ghost use Rattle.std.specs.Prelude.{◌≡◌, ◌≤◌, ◌^◌};
ghost use Rattle.unimodular.specs.Matrix.{negated as minus, signed};
ghost use Rattle.unimodular.proofs.Descent.{size};
ghost use Rattle.matrices.specs.Entries.{matrix};

use crate::Matrix;

fn negated(m: Matrix) -> Matrix
    requires { size (matrix m) ≤ 2 ^ 44 }
    ensures { matrix result ≡ minus (matrix m) }
{
    Matrix {
        a: -m.a,
        b: -m.b,
        c: -m.c,
        d: -m.d,
    }
}

// Document 01: "of the two signs, the one is returned whose first non-zero entry among a, b is positive."
pub(crate) fn with_sign(m: Matrix) -> Matrix
    requires { size (matrix m) ≤ 2 ^ 44 }
    ensures { matrix result ≡ signed (matrix m) }
{
    if 0 < m.a || (m.a == 0 && 0 < m.b) {
        return m;
    }
    negated(m)
}
