// What the programs print with: the line of an answer, a verdict, a word, a number, a list, and what lent slices hold. It all goes to a writer that the
// caller lends, of whose bytes a contract can speak where it knows them; a program lends its standard output.
#![tactic(auto)]

pub mod lent;
pub mod lists;

ghost use Rattle.std.specs.Prelude.{◌≡◌, Ok, None, OnOk, codes};
ghost use Rattle.std.specs.Io.KnownBytes.{Appends};
ghost use Rattle.showing.specs.Printing.{Prints, Leaves};

use answers::{Answer, LINE_BYTES, LineError};
use std::io;
use std::io::Write;
use words::{Factors, Refusal};

// Why a line is not printed whole: a member lacks its factors (it counts none, or the witness has fewer bytes), or the line has more than answers::LINE_BYTES
// bytes, and it was not written; or the system took a part of it, or nothing, and says why.
#[derive(Drop)]
pub enum PrintError {
    FactorsMissing,
    TooLong,
    Failed(io::Error),
}

// The answer's line.
pub fn line<W: Write>(
    output: &mut W,
    answer: Result<Answer, Refusal>,
    witness: &[u8],
) -> Result<(), PrintError>
    ensures prints { Prints answer witness.now result }
    ensures written { Leaves (W.contents output.old) (W.contents output.new) answer witness.now result }
{
    let mut text = [0u8; LINE_BYTES];
    match answers::write_line(answer, witness, &mut text) {
        Ok(len) => output.write_all(&text[..len]).map_err(PrintError::Failed),
        Err(LineError::FactorsMissing) => Err(PrintError::FactorsMissing),
        Err(LineError::TooShort) => Err(PrintError::TooLong),
    }
}

// A word of at most twelve bytes, or its first four bytes and how many there are.
pub fn word(output: &mut impl Write, bytes: &[u8]) -> io::Result<()> {
    let count = bytes.len();
    if count <= 12 {
        return output.write_all(bytes);
    }
    output.write_all(&bytes[..4])?;
    write!(output, "~{count}")
}

// A number behind a space.
pub fn number(output: &mut impl Write, x: u16) -> io::Result<()> {
    write!(output, " {x}")
}

// A member and the count of its factors, or none; or the refusal.
pub fn verdict<W: Write>(
    output: &mut W,
    verdict: Result<Option<Factors>, Refusal>,
) -> io::Result<()>
    ensures { verdict ≡ Ok None → OnOk result (Appends (W.contents output.old) (W.contents output.new) (codes "none")) }
{
    match verdict {
        Ok(Some(count)) => write!(output, "member {}", count.0),
        Ok(None) => output.write_all(b"none"),
        Err(refusal) => write!(output, "{refusal}"),
    }
}
