// Lists taken as subgroups: a factor may be a generator or its inverse. The signed verdict, and the letters of a signed factor.
#![tactic(auto)]

mod asking;
mod judging;
mod parts;
mod signing;

ghost use Rattle.std.specs.Prelude.{◌≡◌};
ghost use Rattle.subgroups.specs.Calls.{JudgesSigned};
ghost use Rattle.subgroups.specs.Parts.{part_of, Shows};

use words::{Factors, Refusal};

// Which letters a factor has: from `start` up to `end` of the inverses' or, where it is none, of the given ones. The flag is the number that C gets; an enum of
// the two slices would say no more.
#[derive(Clone, Copy, Debug, PartialEq, Eq)]
pub struct Part {
    pub inverse: bool,
    pub start: u16,
    pub end: u16,
}

// Is the target a product of at most n factors, each a generator of the list or the inverse of one? Of a member's least series the first is written to the
// front of `witness`, a generator by its number and an inverse by 128 plus that. After every verdict the front of `inverses` has the inverses' normal forms,
// one behind the other, and the first q * q entries of both tables are 0; a refusal changes nothing.
pub fn judge(
    bytes: &[u8],
    ends: &[u16],
    target: &[u8],
    n: Factors,
    first: &mut [u16],
    second: &mut [u16],
    witness: &mut [u8],
    inverses: &mut [u8],
) -> Result<Option<Factors>, Refusal>
    ensures { JudgesSigned bytes.now ends.now target.now n.0 result
        (record { first = first.old; second = second.old; witness = witness.old })
        (record { first = first.new; second = second.new; witness = witness.new })
        inverses.old inverses.new }
{
    lists::of_list(bytes, ends, target)?;
    judging::judge_list(bytes, ends, target, n, first, second, witness, inverses)
}

// Which part of the given letters or of the inverses' a signed number's factor is, where the inverse slice has `inverses` bytes. Where a question is answered
// no, or no factor has the number, it is the empty part at the start of the given letters.
pub fn part_of(bytes: &[u8], ends: &[u16], inverses: usize, number: u8) -> Part
    ensures { result ≡ part_of bytes.now ends.now inverses number }
{
    parts::part(bytes, ends, inverses, number)
}

// The letters of a signed number's factor: that part itself. Those of an inverse are its normal form as long as the slice holds what `judge` wrote.
pub fn letters_of<'a>(given: &'a [u8], ends: &[u16], inverses: &'a [u8], number: u8) -> &'a [u8]
    ensures { Shows given.entry ends.now inverses.entry number result }
{
    let part = part_of(given, ends, inverses.len(), number);
    let start = usize::from(part.start);
    let end = usize::from(part.end);
    if part.inverse {
        return &inverses[start..end];
    }
    &given[start..end]
}
