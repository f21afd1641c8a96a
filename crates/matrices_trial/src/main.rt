// Document 01's worked values and edges of the two calls between words and matrices, one to a line. A word's line has the word and its
// matrix; a matrix's line has the matrix, the length written and all of the slice, which was full of dots; a refusal has its number and place.
#![tactic(auto)]

mod printing;

ghost use Rattle.std.specs.Prelude.{IfOk};
ghost use Rattle.matrices.specs.Entries.{matrix};
ghost use Rattle.matrices.specs.Calls.{TurnsMatrix};

use matrices::Matrix;
use std::io;
use std::io::Write;
use words::{Letters, Refusal};

fn word(output: &mut impl Write, letters: &[u8]) -> io::Result<()> {
    output.write_all(letters)?;
    write!(output, ": ")?;
    answer(output, letters)
}

fn answer(output: &mut impl Write, letters: &[u8]) -> io::Result<()> {
    match matrices::word_to_matrix(letters) {
        Ok(m) => printing::matrix(output, m)?,
        Err(refusal) => write!(output, "{refusal}")?,
    }
    writeln!(output)
}

fn written(output: &mut impl Write, answer: Result<Letters, Refusal>) -> io::Result<()> {
    match answer {
        Ok(letters) => write!(output, "{}", letters.0),
        Err(refusal) => write!(output, "{refusal}"),
    }
}

fn into(output: &mut impl Write, m: Matrix, out: &mut [u8]) -> io::Result<Result<Letters, Refusal>>
    ensures { IfOk result (λ answer. TurnsMatrix (matrix m) out.old answer out.new) }
{
    let answer = matrices::matrix_to_word(m, out);
    printing::matrix(output, m)?;
    write!(output, ": ")?;
    written(output, answer)?;
    write!(output, " ")?;
    output.write_all(out)?;
    writeln!(output)?;
    Ok(answer)
}

fn matrix(output: &mut impl Write, a: i64, b: i64, c: i64, d: i64) -> io::Result<()> {
    let mut out = [46u8; 82];
    let _ = into(output, Matrix { a, b, c, d }, &mut out)?;
    Ok(())
}

fn in_80_bytes(output: &mut impl Write, a: i64, b: i64, c: i64, d: i64) -> io::Result<()> {
    let mut out = [46u8; 80];
    let _ = into(output, Matrix { a, b, c, d }, &mut out)?;
    Ok(())
}

fn in_79_bytes(output: &mut impl Write, a: i64, b: i64, c: i64, d: i64) -> io::Result<()> {
    let mut out = [46u8; 79];
    let _ = into(output, Matrix { a, b, c, d }, &mut out)?;
    Ok(())
}

// S, T, U and their inverses, and words that are not reduced
fn short_words(output: &mut impl Write) -> io::Result<()> {
    word(output, b"")?;
    word(output, b"R")?;
    word(output, b"S")?;
    word(output, b"SR")?;
    word(output, b"SSR")?;
    word(output, b"RSS")?;
    word(output, b"RS")?;
    word(output, b"RR")?;
    word(output, b"SSS")?;
    word(output, b"SSSS")?;
    word(output, b"RSSSR")?;
    word(output, b"SRx")
}

// 80, 82, 78 and 81 letters, and the largest entries of 80
fn long_words(output: &mut impl Write) -> io::Result<()> {
    word(
        output,
        b"SRSRSRSRSRSRSRSRSRSRSRSRSRSRSRSRSRSRSRSRSRSRSRSRSRSRSRSRSRSRSRSRSRSRSRSRSRSRSRSR",
    )?;
    word(
        output,
        b"SRSRSRSRSRSRSRSRSRSRSRSRSRSRSRSRSRSRSRSRSRSRSRSRSRSRSRSRSRSRSRSRSRSRSRSRSRSRSRSRSR",
    )?;
    word(
        output,
        b"RSSRSSRSSRSSRSSRSSRSSRSSRSSRSSRSSRSSRSSRSSRSSRSSRSSRSSRSSRSSRSSRSSRSSRSSRSSRSS",
    )?;
    word(
        output,
        b"RSSRSSRSSRSSRSSRSSRSSRSSRSSRSSRSSRSSRSSRSSRSSRSSRSSRSSRSSRSSRSSRSSRSSRSSRSSRSSRSS",
    )?;
    word(
        output,
        b"SRSSRSRSSRSRSSRSRSSRSRSSRSRSSRSRSSRSRSSRSRSSRSRSSRSRSSRSRSSRSRSSRSRSSRSRSSRSRSSR",
    )
}

// 4,096 letters that cancel, and one more
fn cancelling_words(output: &mut impl Write) -> io::Result<()> {
    write!(output, "R 4096 times: ")?;
    let even = [b'R'; 4096];
    answer(output, &even)?;
    write!(output, "R 4097 times: ")?;
    let more = [b'R'; 4097];
    answer(output, &more)
}

// The unit matrix, R, S with both signs, T, U and their inverses
fn short_forms(output: &mut impl Write) -> io::Result<()> {
    matrix(output, 1, 0, 0, 1)?;
    matrix(output, -1, 0, 0, -1)?;
    matrix(output, 0, -1, 1, 0)?;
    matrix(output, 0, 1, -1, 0)?;
    matrix(output, 1, -1, 1, 0)?;
    matrix(output, -1, 1, -1, 0)?;
    matrix(output, 1, 1, 0, 1)?;
    matrix(output, 1, 0, 1, 1)?;
    matrix(output, 1, -1, 0, 1)?;
    matrix(output, 1, 0, -1, 1)
}

// Powers of T: 80, 80, 82, 78 and 81 letters
fn powers(output: &mut impl Write) -> io::Result<()> {
    matrix(output, 1, 40, 0, 1)?;
    matrix(output, -1, -40, 0, -1)?;
    matrix(output, 1, 41, 0, 1)?;
    matrix(output, 1, -26, 0, 1)?;
    matrix(output, 1, -27, 0, 1)
}

// Question 5: each entry at its limits, which question 12 refuses later, and one beyond. The second is T to the 2147483647th.
fn upper_limits(output: &mut impl Write) -> io::Result<()> {
    matrix(output, 2147483647, -1, 1, 0)?;
    matrix(output, 1, 2147483647, 0, 1)?;
    matrix(output, 1, 0, 2147483647, 1)?;
    matrix(output, 0, -1, 1, 2147483647)?;
    matrix(output, 2147483648, -1, 1, 0)?;
    matrix(output, 1, 2147483648, 0, 1)?;
    matrix(output, 1, 0, 2147483648, 1)?;
    matrix(output, 0, -1, 1, 2147483648)
}

fn lower_limits(output: &mut impl Write) -> io::Result<()> {
    matrix(output, -2147483647, -1, 1, 0)?;
    matrix(output, 1, -2147483647, 0, 1)?;
    matrix(output, 1, 0, -2147483647, 1)?;
    matrix(output, 0, -1, 1, -2147483647)?;
    matrix(output, -2147483648, -1, 1, 0)?;
    matrix(output, 1, -2147483648, 0, 1)?;
    matrix(output, 1, 0, -2147483648, 1)?;
    matrix(output, 0, -1, 1, -2147483648)
}

// The least and the greatest number of 64 bits, and two entries too large
fn extremes(output: &mut impl Write) -> io::Result<()> {
    matrix(output, 9223372036854775807, -9223372036854775808, 1, 0)?;
    matrix(output, 1, -9223372036854775808, 9223372036854775807, 1)?;
    matrix(output, 0, -1, 9223372036854775807, -9223372036854775808)?;
    matrix(output, 0, -1, 1, -9223372036854775808)
}

// Question 6: determinants -1, 0, 2, and the largest and smallest that there are
fn determinants(output: &mut impl Write) -> io::Result<()> {
    matrix(output, 0, 1, 1, 0)?;
    matrix(output, 1, 1, 1, 1)?;
    matrix(output, 0, 0, 0, 0)?;
    matrix(output, 2, 0, 0, 1)?;
    matrix(output, 2147483647, -2147483647, 2147483647, 2147483647)?;
    matrix(output, -2147483647, 2147483647, 2147483647, 2147483647)
}

// Question 14: 80 bytes are enough and 79 are not, whatever the word. Questions 5, 6 and 12 come before it.
fn rooms(output: &mut impl Write) -> io::Result<()> {
    in_80_bytes(output, 1, 40, 0, 1)?;
    in_79_bytes(output, 1, 0, 1, 1)?;
    in_79_bytes(output, 1, 41, 0, 1)?;
    in_79_bytes(output, 1, 1, 1, 1)?;
    in_79_bytes(output, 1, 1, 2147483648, 1)
}

fn main(rt: HostRuntime) -> io::Result<()> {
    let output = &mut rt.stdout();
    short_words(output)?;
    long_words(output)?;
    cancelling_words(output)?;
    short_forms(output)?;
    powers(output)?;
    upper_limits(output)?;
    lower_limits(output)?;
    extremes(output)?;
    determinants(output)?;
    rooms(output)
}
