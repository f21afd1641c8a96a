// A matrix multiplied on the right by R = (0 -1; 1 0): its second column, and its first with the sign changed.
ghost use Rattle.std.specs.Prelude.{◌≡◌, ◌≤◌, ◌^◌};
ghost use Rattle.words.specs.Word.{R};
ghost use Rattle.unimodular.specs.Matrix.{times, matrix_of_letter};
ghost use Rattle.unimodular.proofs.Descent.{size};
ghost use Rattle.matrices.specs.Entries.{matrix};

use crate::Matrix;

impl Matrix {
    pub(crate) fn times_r(self) -> Matrix
        requires { size (matrix self) ≤ 2 ^ 44 }
        ensures { matrix result ≡ times (matrix self) (matrix_of_letter R) }
    {
        Matrix {
            a: self.b,
            b: -self.a,
            c: self.d,
            d: -self.c,
        }
    }
}
