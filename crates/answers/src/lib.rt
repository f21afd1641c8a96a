// The answer to a query card, and the line that says it.
#![tactic(auto)]

mod writing;

ghost use Rattle.std.specs.Prelude.{◌≡◌};
ghost use Rattle.answers.specs.Calls.{WritesLine, witnessed as witnessed_of};

use words::{Factors, Refusal};

// The bytes of the longest line: no answer of at most limits::BOUND factors has a longer one, by `line_short` of proofs/LineLength.antt.
pub const LINE_BYTES: usize = 4096;

// A member with its count, or none with the bound. A card may be refused instead, so a call answers a `Result`.
#[derive(Clone, Copy, Debug, PartialEq, Eq)]
pub enum Answer {
    Member(Factors),
    None(Factors),
}

// Why no line is written: the slice is too short for it; or a member is without its factors: the count is 0, or the witness has fewer bytes.
#[derive(Clone, Copy, Debug, PartialEq, Eq)]
pub enum LineError {
    TooShort,
    FactorsMissing,
}

// Whether the answer has its factors: a member counts one or more, and the witness has them all.
fn witnessed(answer: Result<Answer, Refusal>, witness: &[u8]) -> bool
    ensures { result ≡ witnessed_of answer witness.now }
{
    match answer {
        Ok(Answer::Member(count)) => 0 < count.0 && count.0 as usize <= witness.len(),
        Ok(Answer::None(_)) => true,
        Err(_) => true,
    }
}

// Writes the answer's line to the front of `out`, and answers how long it is. A member's factors are the first bytes of the witness.
pub fn write_line(
    answer: Result<Answer, Refusal>,
    witness: &[u8],
    out: &mut [u8],
) -> Result<usize, LineError>
    ensures { WritesLine answer witness.now out.old result out.new }
{
    if !witnessed(answer, witness) {
        return Err(LineError::FactorsMissing);
    }
    // Where there is no room nothing is stored: this only measures the line.
    let len = writing::write(answer, witness, &mut []);
    if out.len() < len {
        return Err(LineError::TooShort);
    }
    Ok(writing::write(answer, witness, out))
}
