// One query card on standard input, one line on standard output. Where no card comes, or the line is not taken, one line on standard error says so: a
// program ends with no status of its own.
#![tactic(auto)]

mod reading;
mod telling;
mod waiting;

use reading::ReadError;
use showing::PrintError;

// A card of more than limits::CARD_BYTES bytes is noticed by one byte more.
const CARD: usize = limits::CARD_BYTES + 1;

// What is lent: two tables and a witness.
const ENTRIES: usize = 16384;

const FACTORS: usize = limits::WITNESS_ROOM;

fn answer(rt: &HostRuntime, card: &[u8]) {
    let mut first = [0u16; ENTRIES];
    let mut second = [0u16; ENTRIES];
    let mut witness = [0u8; FACTORS];
    let answer = cards::answer_card(card, &mut first, &mut second, &mut witness);
    match showing::line(&mut rt.stdout(), answer, &witness) {
        Ok(()) => {}
        Err(PrintError::FactorsMissing) => telling::tell(rt, "the witness lacks factors"),
        Err(PrintError::TooLong) => telling::tell(rt, "the line is too long"),
        Err(PrintError::Failed(error)) => {
            telling::tell_failure(rt, rt.alloc(), "the line cannot be written", error);
        }
    }
}

fn main(rt: HostRuntime) {
    let mut card = [0u8; CARD];
    match reading::read_card(&rt, &mut rt.stdin(), &mut card) {
        Ok(used) => answer(&rt, &card[..used]),
        Err(ReadError::Failed(error)) => {
            telling::tell_failure(&rt, rt.alloc(), "standard input cannot be read", error);
        }
        Err(ReadError::Late) => telling::tell(&rt, "nothing came for 10 seconds"),
    }
}
