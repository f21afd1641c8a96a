// Lists of generators: the questions about a list's slices, and the list with its generators reduced, with their inverses behind them where that is asked for.
// Every call takes any slices whatever.
#![tactic(auto)]

mod ends;
mod inverting;
mod reducing;

ghost use Rattle.std.specs.Prelude.{◌≡◌};
ghost use Rattle.lists.specs.Questions.{of_list};
ghost use Rattle.lists.specs.Reducing.{Checked};
ghost use Rattle.lists.specs.Calls.{ReducesList, ReducesSigned};

use limits::{GENERATORS, LIST_ROOM, WORD_LETTERS};
use words::{Letters, Refusal};

// Questions 7, 8, 9 and 10 of a list and a target.
pub fn of_list(bytes: &[u8], ends: &[u16], target: &[u8]) -> Result<(), Refusal>
    ensures { result ≡ of_list bytes.now ends.now target.now }
{
    if GENERATORS < ends.len() {
        return Err(Refusal::TooManyGenerators);
    }
    if WORD_LETTERS < bytes.len() || WORD_LETTERS < target.len() {
        return Err(Refusal::TooManyLetters);
    }
    ends::of_ends(ends, bytes)?;
    ends::of_all_letters(bytes, target)
}

// Writes the normal forms of the list's generators to the front of `out`, one behind the other, and their ends to the front of
// `out_ends`. The answer is m, the sum of their lengths.
pub fn reduce_list(
    bytes: &[u8],
    ends: &[u16],
    out: &mut [u8],
    out_ends: &mut [u16],
) -> Result<Letters, Refusal>
    ensures { ReducesList bytes.now ends.now out.old out_ends.old result out.new out_ends.new }
{
    of_list(bytes, ends, &[])?;
    reduce_checked(bytes, ends, out, out_ends)
}

// Room for the letters that question 11 lets pass, and for one generator that it does not.
const FORMS: usize = LIST_ROOM + WORD_LETTERS;

// The same, of a list that has passed questions 7 to 10. The forms are first written to slices of its own: a refusal changes no lent one.
fn reduce_checked(
    bytes: &[u8],
    ends: &[u16],
    out: &mut [u8],
    out_ends: &mut [u16],
) -> Result<Letters, Refusal>
    requires { Checked bytes.now ends.now }
    ensures { ReducesList bytes.now ends.now out.old out_ends.old result out.new out_ends.new }
{
    let mut forms = [0; FORMS];
    let mut form_ends = [0; GENERATORS];
    let sum = reducing::write_forms(bytes, ends, &mut forms, &mut form_ends)?;
    let len = usize::from(sum.0);
    reducing::hand_over(&forms[..len], &form_ends[..ends.len()], out, out_ends)?;
    Ok(sum)
}

// The letters of the given generators' normal forms together, and of these and the inverses'.
#[derive(Clone, Copy, Debug, PartialEq, Eq)]
pub struct Lengths {
    pub given: Letters,
    pub all: Letters,
}

// Writes the normal forms of the list's generators, and behind them those of their inverses, to the front of `out`, and their ends to the front of `out_ends`.
pub fn reduce_signed(
    bytes: &[u8],
    ends: &[u16],
    out: &mut [u8],
    out_ends: &mut [u16],
) -> Result<Lengths, Refusal>
    ensures { ReducesSigned bytes.now ends.now out.old out_ends.old result out.new out_ends.new }
{
    let mut letters = [0; LIST_ROOM];
    let mut list_ends = [0; GENERATORS];
    let given = reduce_list(bytes, ends, &mut letters, &mut list_ends)?;
    let len = usize::from(given.0);
    inverting::hand_over_signed(&letters[..len], &list_ends[..ends.len()], out, out_ends)
}
