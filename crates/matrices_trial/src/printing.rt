// What the trial prints with: numbers with their sign, and a matrix.
ghost use Rattle.std.specs.Prelude.{◌≡◌, nat_abs};

use matrices::Matrix;
use std::io;
use std::io::Write;

// Without its sign. The least number has no negation in 64 bits, and the one above it has.
fn magnitude(x: i64) -> u64
    ensures { result ≡ nat_abs x }
{
    if x < 0 {
        return (-(x + 1)) as u64 + 1;
    }
    x as u64
}

pub(crate) fn signed(output: &mut impl Write, x: i64) -> io::Result<()> {
    if x < 0 {
        write!(output, "-")?;
    }
    let magnitude = magnitude(x);
    write!(output, "{magnitude}")
}

pub(crate) fn matrix(output: &mut impl Write, m: Matrix) -> io::Result<()> {
    signed(output, m.a)?;
    write!(output, " ")?;
    signed(output, m.b)?;
    write!(output, " ")?;
    signed(output, m.c)?;
    write!(output, " ")?;
    signed(output, m.d)
}
