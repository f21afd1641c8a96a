// The query card: one slice of bytes that says a bound, a target and a list. It is read, its questions are put, and it is answered.
#![tactic(auto)]

mod answering;
mod flattening;
mod reading;

ghost use Rattle.cards.specs.Calls.{AnswersCard};

use crate::answering::Lent;
use answers::Answer;
use limits::CARD_BYTES;
use words::Refusal;

// Answers a card of any length and content. The tables and the witness are lent as to the engine.
pub fn answer_card(
    card: &[u8],
    first: &mut [u16],
    second: &mut [u16],
    witness: &mut [u8],
) -> Result<Answer, Refusal>
    ensures { AnswersCard card.now result
        (record { first = first.old; second = second.old; witness = witness.old })
        (record { first = first.new; second = second.new; witness = witness.new }) }
{
    if CARD_BYTES < card.len() {
        return Err(Refusal::CardTooLong);
    }
    let map = *card.first().ok_or(Refusal::BitMapWrong)?;
    if 15 < map || reading::both_targets(map) {
        return Err(Refusal::BitMapWrong);
    }
    answering::answer_fields(
        card,
        map,
        &mut Lent {
            first,
            second,
            witness,
        },
    )
}
