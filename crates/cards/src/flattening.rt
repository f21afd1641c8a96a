// A card's list as the engine takes it: the letters of all generators, one behind the other, and the ends.
ghost use Rattle.std.specs.Prelude.{◌≡◌, List, ℕ, ◌≤◌, ◌<◌, length};
ghost use Rattle.limits.specs.Limits.{most_generators, most_letters};
ghost use Rattle.refusals.specs.Questions.{question8};
ghost use Rattle.words.specs.Calls.{length_or};
ghost use Rattle.cards.specs.Card.{list_bytes};
ghost use Rattle.cards.specs.Reading.{Listed, SomeListed};
ghost use Rattle.cards.specs.Flattening.{ShortListed, WritesList, Flattens};

use crate::reading::{Generators, letters as letters_of};
use limits::{GENERATORS, WORD_LETTERS};
use words::{Letters, Refusal};

// Writes the letters of the generators that fill their bytes, one behind the other, and their ends.
fn write_list(list: Generators, letters: &mut [u8], ends: &mut [u16])
    requires short_listed { ShortListed list.bytes.now list.count }
    requires room { (most_letters ≤ length letters.old) × (list.count ≤ length ends.old) }
    ensures { (generators : List (List ℕ)) → Listed list.entry.bytes.now list.entry.count generators
        → WritesList generators letters.old letters.new ends.old ends.new }
{
    let mut rest = list.bytes;
    let mut sum = 0;
    for i in 0..list.count {
        let (generator, behind) = letters_of(rest).unwrap();
        let end = sum + generator.len();
        letters[sum..end].copy_from_slice(generator);
        ends[i] = end as u16;
        sum = end;
        rest = behind;
    }
}

// Question 8 of the list: its letters are what its generators' lengths leave of its bytes, which may be more than 16 bits tell.
fn count_letters(list: Generators) -> Result<Letters, Refusal>
    requires { SomeListed list.bytes.now list.count }
    ensures { (generators : List (List ℕ)) → Listed list.entry.bytes.now list.entry.count generators
        → result ≡ length_or (question8 (length (list_bytes generators))) (length (list_bytes generators)) }
{
    let count = list.bytes.len() - 2 * list.count;
    if WORD_LETTERS < count {
        return Err(Refusal::TooManyLetters);
    }
    Ok(Letters(count as u16))
}

// Puts question 7, and question 8 of the list; then writes the list's letters and its ends to the fronts of the two slices, and answers how many letters
// there are. The list's generators fill their bytes.
pub(crate) fn flatten(
    list: Generators,
    letters: &mut [u8],
    ends: &mut [u16],
) -> Result<Letters, Refusal>
    requires some_listed { SomeListed list.bytes.now list.count }
    requires room { (most_letters ≤ length letters.old) × (most_generators ≤ length ends.old) }
    ensures { (generators : List (List ℕ)) → Listed list.entry.bytes.now list.entry.count generators
        → Flattens generators result letters.old letters.new ends.old ends.new }
{
    if GENERATORS < list.count {
        return Err(Refusal::TooManyGenerators);
    }
    let total = count_letters(list)?;
    write_list(list, letters, ends);
    Ok(total)
}
