// The quick answer: does the list fail to make the target already modulo 7?
#![tactic(auto)]

mod closing;
mod deciding;
mod table;

ghost use Rattle.quick.specs.Calls.{Answers};

use words::Refusal;

// No: no product of the list's generators is the target, of however many factors, since none is modulo 7. Open: there is one modulo 7, and the verdicts have
// to be asked.
#[derive(Clone, Copy, Debug, PartialEq, Eq)]
pub enum Quick {
    No,
    Open,
}

// Is the target's image no product of one or more of the generators' images? Nothing is lent to be written.
pub fn quick_no(bytes: &[u8], ends: &[u16], target: &[u8]) -> Result<Quick, Refusal>
    ensures { Answers bytes.now ends.now target.now result }
{
    lists::of_list(bytes, ends, target)?;
    deciding::answer_checked(bytes, ends, target)
}
