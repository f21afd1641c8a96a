// From a card to its answer. What is read behind what is the order of the questions 3 to 15.
ghost use Rattle.std.specs.Prelude.{◌≡◌, List, ℕ, ◌≤◌, length, drop};
ghost use Rattle.words.specs.Bytes.{word};
ghost use Rattle.matrices.specs.Entries.{matrix};
ghost use Rattle.matrices.specs.Questions.{of_entries};
ghost use Rattle.cards.specs.Card.{Target, fields};
ghost use Rattle.cards.specs.Calls.{AnswersProduct, AnswersMatrix, AnswersTarget, AnswersRead};
ghost use Rattle.cards.specs.Reading.{GoalIs, Listed, SomeListed};
ghost use Rattle.cards.specs.Lending.{held, SameSlices};

use crate::flattening::flatten;
use crate::reading;
use crate::reading::{Generators, Goal};
use answers::Answer;
use limits::{FORM_ROOM, GENERATORS, WORD_LETTERS};
use matrices::Matrix;
use words::{Factors, Refusal};

// What is lent to the engine: its two tables, and the witness.
#[derive(Drop)]
pub(crate) struct Lent<'a> {
    pub(crate) first: &'a mut [u16],
    pub(crate) second: &'a mut [u16],
    pub(crate) witness: &'a mut [u8],
}

// The answer to a bound, a target's letters, and the list that fills its bytes.
fn answer_letters(
    list: Generators,
    target: &[u8],
    n: Factors,
    lent: &mut Lent,
) -> Result<Answer, Refusal>
    requires { SomeListed list.bytes.now list.count }
    ensures same_slices { SameSlices lent.old lent.new }
    ensures answers { (generators : List (List ℕ)) → Listed list.entry.bytes.now list.entry.count generators
        → AnswersProduct n.0 target.now (word target.now) generators result (held lent.old) (held lent.new) }
{
    let mut letters = [0u8; WORD_LETTERS];
    let mut ends = [0u16; GENERATORS];
    let total = flatten(list, &mut letters, &mut ends)?.0 as usize;
    let verdict = engine::judge(
        &letters[..total],
        &ends[..list.count],
        target,
        n,
        lent.first,
        lent.second,
        lent.witness,
    )?;
    Ok(match verdict {
        Some(count) => Answer::Member(count),
        None => Answer::None(n),
    })
}

// The answer to a bound, a matrix, and the list that fills its bytes. Where the normal form is too long, T to the 41st, which is too long too, stands for
// it: the list's questions come before question 12.
fn answer_matrix(
    list: Generators,
    m: Matrix,
    n: Factors,
    lent: &mut Lent,
) -> Result<Answer, Refusal>
    requires { SomeListed list.bytes.now list.count }
    ensures same_slices { SameSlices lent.old lent.new }
    ensures answers { (generators : List (List ℕ)) → Listed list.entry.bytes.now list.entry.count generators
        → AnswersMatrix (of_entries (matrix m)) n.0 (matrix m) generators result (held lent.old) (held lent.new) }
{
    let mut form = [0u8; FORM_ROOM];
    match matrices::matrix_to_word(m, &mut form) {
        Ok(len) => answer_letters(list, &form[..len.0 as usize], n, lent),
        // By a match of its own, which knows of its other arm that it is another refusal.
        Err(refusal) => match refusal {
            Refusal::NormalFormTooLong => answer_letters(
                list,
                b"SRSRSRSRSRSRSRSRSRSRSRSRSRSRSRSRSRSRSRSRSRSRSRSRSRSRSRSRSRSRSRSRSRSRSRSRSRSRSRSRSR",
                n,
                lent,
            ),
            _ => Err(refusal),
        },
    }
}

// The answer to a bound, a target, and the list that fills its bytes.
fn answer_goal(list: Generators, goal: Goal, n: Factors, lent: &mut Lent) -> Result<Answer, Refusal>
    requires { SomeListed list.bytes.now list.count }
    ensures same_slices { SameSlices lent.old lent.new }
    ensures answers { (generators : List (List ℕ)) (target : Target) → Listed list.entry.bytes.now list.entry.count generators → GoalIs target goal.entry
        → AnswersTarget n.0 target generators result (held lent.old) (held lent.new) }
{
    match goal {
        Goal::Letters(letters) => answer_letters(list, letters, n, lent),
        Goal::Entries(m) => answer_matrix(list, m, n, lent),
    }
}

// The answer of a card behind its bit map: the fields are read, and nothing may be left.
pub(crate) fn answer_fields(card: &[u8], map: u8, lent: &mut Lent) -> Result<Answer, Refusal>
    requires { 1 ≤ length card.now }
    ensures same_slices { SameSlices lent.old lent.new }
    ensures answers { AnswersRead (length card.now) (fields map (drop 1 card.now)) result (held lent.old) (held lent.new) }
{
    let cut = Refusal::FieldCut(card.len());
    let (n, rest) = reading::bound(map, &card[1..]).ok_or(cut)?;
    let (goal, rest) = reading::target(map, rest).ok_or(cut)?;
    let (list, rest) = reading::list(map, rest).ok_or(cut)?;
    if !rest.is_empty() {
        return Err(Refusal::SpareByte(card.len() - rest.len()));
    }
    answer_goal(list, goal, n, lent)
}
