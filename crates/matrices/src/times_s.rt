// A matrix multiplied on the right by S = (1 -1; 1 0): the sum of its columns, and its first with the sign changed.
ghost use Rattle.std.specs.Prelude.{◌≡◌, ◌≤◌, ◌^◌};
ghost use Rattle.words.specs.Word.{S};
ghost use Rattle.unimodular.specs.Matrix.{times, matrix_of_letter};
ghost use Rattle.unimodular.proofs.Descent.{size};
ghost use Rattle.matrices.specs.Entries.{matrix};

use crate::Matrix;

impl Matrix {
    pub(crate) fn times_s(self) -> Matrix
        requires { size (matrix self) ≤ 2 ^ 44 }
        ensures { matrix result ≡ times (matrix self) (matrix_of_letter S) }
    {
        Matrix {
            a: self.a + self.b,
            b: -self.a,
            c: self.c + self.d,
            d: -self.c,
        }
    }
}
