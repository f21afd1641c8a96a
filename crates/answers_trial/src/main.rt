// The lines of answers of every kind and at their edges, and then what `write_line` leaves in slices that were full of dots. What it must print stands in
// `stdout`.
#![tactic(auto)]

ghost use Rattle.std.specs.Prelude.{◌≡◌, length};
ghost use Rattle.answers.specs.Line.{line};
ghost use Rattle.answers.specs.Calls.{lined, left};

use answers::{Answer, LineError};
use showing::PrintError;
use std::io;
use std::io::Write;
use words::{Factors, Refusal};

// Prints the answer's line, or else why it is not printed.
fn show(
    output: &mut impl Write,
    answer: Result<Answer, Refusal>,
    witness: &[u8],
) -> io::Result<()> {
    match showing::line(output, answer, witness) {
        Ok(()) => Ok(()),
        Err(PrintError::FactorsMissing) => writeln!(output, "factors missing"),
        Err(PrintError::TooLong) => writeln!(output, "too long"),
        Err(PrintError::Failed(error)) => Err(error),
    }
}

fn show_member(output: &mut impl Write, count: u16, witness: &[u8]) -> io::Result<()> {
    show(output, Ok(Answer::Member(Factors(count))), witness)
}

fn show_none(output: &mut impl Write, n: u16) -> io::Result<()> {
    show(output, Ok(Answer::None(Factors(n))), b"")
}

fn show_refused(output: &mut impl Write, refusal: Refusal) -> io::Result<()> {
    show(output, Err(refusal), b"")
}

// A member has one factor or more, the first bytes of the witness; where it counts none, or the witness has fewer, there is no line.
fn short_members(output: &mut impl Write) -> io::Result<()> {
    show_member(output, 0, b"")?;
    show_member(output, 0, b"A")?;
    show_member(output, 1, b"A")?;
    show_member(output, 3, b"\x00\x0a\xc8")?;
    show_member(output, 2, b"\x09\x63\x64")?;
    show_member(output, 3, b"\x09\x63")
}

// Factors of three digits: 1,000 have 4,012 bytes, 1,021 have 4,096, and 1,022 more than are printed.
fn long_members(output: &mut impl Write) -> io::Result<()> {
    let thousand = [255u8; limits::WITNESS_ROOM];
    show_member(output, limits::BOUND, &thousand)?;
    let most = [255u8; 1021];
    show_member(output, 1021, &most)?;
    let too_many = [255u8; 1022];
    show_member(output, 1022, &too_many)
}

fn nones(output: &mut impl Write) -> io::Result<()> {
    show_none(output, 0)?;
    show_none(output, limits::BOUND)?;
    show_none(output, 65535)
}

fn first_refusals(output: &mut impl Write) -> io::Result<()> {
    show_refused(output, Refusal::CardTooLong)?;
    show_refused(output, Refusal::BitMapWrong)?;
    show_refused(output, Refusal::FieldCut(9))?;
    show_refused(output, Refusal::SpareByte(8325))?;
    show_refused(output, Refusal::EntryTooLarge(3))?;
    show_refused(output, Refusal::DeterminantNotOne)?;
    show_refused(output, Refusal::TooManyGenerators)?;
    show_refused(output, Refusal::TooManyLetters)
}

fn last_refusals(output: &mut impl Write) -> io::Result<()> {
    show_refused(output, Refusal::EndsWrong(63))?;
    show_refused(output, Refusal::NotALetter(18446744073709551615))?;
    show_refused(output, Refusal::GeneratorTooLong(0))?;
    show_refused(output, Refusal::NormalFormTooLong)?;
    show_refused(output, Refusal::BoundTooLarge)?;
    show_refused(output, Refusal::OutputTooShort)?;
    show_refused(output, Refusal::TableTooShort)?;
    show_refused(output, Refusal::MatrixTooLarge)
}

fn print_lined(output: &mut impl Write, lined: Result<usize, LineError>) -> io::Result<()> {
    match lined {
        Ok(len) => write!(output, "length {len}"),
        Err(LineError::TooShort) => write!(output, "too short"),
        Err(LineError::FactorsMissing) => write!(output, "factors missing"),
    }
}

// Says how long the slice is and what `write_line` answers; then the whole slice as it is left, up to a bar.
fn write(
    output: &mut impl Write,
    answer: Result<Answer, Refusal>,
    witness: &[u8],
    out: &mut [u8],
) -> io::Result<()>
    ensures { out.new ≡ left (lined answer witness.now (length out.old)) (line answer witness.now) out.old }
{
    let lined = answers::write_line(answer, witness, out);
    let room = out.len();
    write!(output, "{room} bytes: ")?;
    print_lined(output, lined)?;
    writeln!(output)?;
    output.write_all(out)?;
    writeln!(output, "|")
}

// Each line into a slice that is just long enough, one byte too short, and longer.
fn member_written(output: &mut impl Write) -> io::Result<()> {
    let mut just = [46u8; 18];
    write(
        output,
        Ok(Answer::Member(Factors(3))),
        b"\x00\x0a\xc8",
        &mut just,
    )?;
    let mut one_short = [46u8; 17];
    write(
        output,
        Ok(Answer::Member(Factors(3))),
        b"\x00\x0a\xc8",
        &mut one_short,
    )?;
    let mut longer = [46u8; 24];
    write(
        output,
        Ok(Answer::Member(Factors(3))),
        b"\x00\x0a\xc8",
        &mut longer,
    )
}

// A slice that is long enough for the line of three factors, and a witness that has two, of which three are counted, or none.
fn factors_missing(output: &mut impl Write) -> io::Result<()> {
    let mut longer = [46u8; 24];
    write(
        output,
        Ok(Answer::Member(Factors(3))),
        b"\x00\x0a",
        &mut longer,
    )?;
    write(
        output,
        Ok(Answer::Member(Factors(0))),
        b"\x00\x0a",
        &mut longer,
    )?;
    let mut none = [46u8; 0];
    write(output, Ok(Answer::Member(Factors(1))), b"", &mut none)
}

fn none_written(output: &mut impl Write) -> io::Result<()> {
    let mut just = [46u8; 11];
    write(output, Ok(Answer::None(Factors(65535))), b"", &mut just)?;
    let mut one_short = [46u8; 10];
    write(
        output,
        Ok(Answer::None(Factors(65535))),
        b"",
        &mut one_short,
    )?;
    let mut longer = [46u8; 12];
    write(output, Ok(Answer::None(Factors(65535))), b"", &mut longer)
}

fn refused_written(output: &mut impl Write) -> io::Result<()> {
    let mut just = [46u8; 32];
    write(
        output,
        Err(Refusal::NotALetter(18446744073709551615)),
        b"",
        &mut just,
    )?;
    let mut one_short = [46u8; 31];
    write(
        output,
        Err(Refusal::NotALetter(18446744073709551615)),
        b"",
        &mut one_short,
    )?;
    let mut longer = [46u8; 40];
    write(
        output,
        Err(Refusal::NotALetter(18446744073709551615)),
        b"",
        &mut longer,
    )?;
    let mut none = [46u8; 0];
    write(output, Err(Refusal::CardTooLong), b"", &mut none)
}

fn main(rt: HostRuntime) -> io::Result<()> {
    let output = &mut rt.stdout();
    short_members(output)?;
    long_members(output)?;
    nones(output)?;
    first_refusals(output)?;
    last_refusals(output)?;
    member_written(output)?;
    factors_missing(output)?;
    none_written(output)?;
    refused_written(output)
}
