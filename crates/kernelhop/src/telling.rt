// An answer told by numbers: two, or four for a reduction.
ghost use Rattle.std.specs.Prelude.{◌≡◌};
ghost use Rattle.kernelhop.specs.Outcome.{yes as yes_of, no, of_refusal, of_reduction, of_written, of_tested, of_verdict, of_part, of_reached, of_quick, of_answer};

use crate::{Outcome, Part, Reduction};
use answers::Answer;
use quick::Quick;
use words::{Account, Factors, Letters, Refusal};

// The number that stands for none, and for a no: no question has it.
const NONE: u8 = 255;

// The number that stands for open, which is neither a yes nor a no.
const OPEN: u8 = 254;

// What is told for n where there is none.
const NO_N: usize = 0;

// An answer that has a value.
fn yes(value: usize) -> Outcome
    ensures { result ≡ yes_of value }
{
    Outcome { number: 0, value }
}

fn none(n: usize) -> Outcome
    ensures { result ≡ no n }
{
    Outcome {
        number: NONE,
        value: n,
    }
}

pub(crate) fn refusal(refusal: Refusal) -> Outcome
    ensures { result ≡ of_refusal refusal }
{
    Outcome {
        number: refusals::number(refusal),
        value: refusals::place(refusal),
    }
}

pub(crate) fn reduction(answer: Result<Account, Refusal>) -> Reduction
    ensures { result ≡ of_reduction answer }
{
    match answer {
        Ok(account) => Reduction {
            number: 0,
            pairs: account.pairs,
            triples: account.triples,
            value: usize::from(account.kept.0),
        },
        Err(why) => Reduction {
            number: refusals::number(why),
            pairs: 0,
            triples: 0,
            value: refusals::place(why),
        },
    }
}

pub(crate) fn written(answer: Result<Letters, Refusal>) -> Outcome
    ensures { result ≡ of_written answer }
{
    match answer {
        Ok(letters) => yes(usize::from(letters.0)),
        Err(why) => refusal(why),
    }
}

pub(crate) fn tested(answer: Result<bool, Refusal>) -> Outcome
    ensures { result ≡ of_tested answer }
{
    match answer {
        Ok(true) => yes(1),
        Ok(false) => yes(0),
        Err(why) => refusal(why),
    }
}

pub(crate) fn verdict(n: Factors, answer: Result<Option<Factors>, Refusal>) -> Outcome
    ensures { result ≡ of_verdict n answer }
{
    match answer {
        Ok(Some(count)) => yes(usize::from(count.0)),
        Ok(None) => none(usize::from(n.0)),
        Err(why) => refusal(why),
    }
}

pub(crate) fn part(part: subgroups::Part) -> Part
    ensures { result ≡ of_part part }
{
    let start = part.start;
    let end = part.end;
    if part.inverse {
        return Part {
            inverse: 1,
            start,
            end,
        };
    }
    Part {
        inverse: 0,
        start,
        end,
    }
}

pub(crate) fn reached(answer: Result<bool, Refusal>) -> Outcome
    ensures { result ≡ of_reached answer }
{
    match answer {
        Ok(true) => yes(1),
        Ok(false) => none(NO_N),
        Err(why) => refusal(why),
    }
}

pub(crate) fn quick(answer: Result<Quick, Refusal>) -> Outcome
    ensures { result ≡ of_quick answer }
{
    match answer {
        Ok(Quick::No) => none(NO_N),
        Ok(Quick::Open) => Outcome {
            number: OPEN,
            value: NO_N,
        },
        Err(why) => refusal(why),
    }
}

pub(crate) fn card(answer: Result<Answer, Refusal>) -> Outcome
    ensures { result ≡ of_answer answer }
{
    match answer {
        Ok(Answer::Member(count)) => yes(usize::from(count.0)),
        Ok(Answer::None(n)) => none(usize::from(n.0)),
        Err(why) => refusal(why),
    }
}
