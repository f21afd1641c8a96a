// Which part of the given letters or of the inverses' normal forms a signed number's factor is.
ghost use Rattle.std.specs.Prelude.{List, ◌∷◌, ◌≡◌, ◌≤◌, ltb, length, get_or};
ghost use Rattle.refusals.specs.Telling.{pick};
ghost use Rattle.words.specs.Word.{Word};
ghost use Rattle.subgroups.specs.Parts.{nothing, given_part, inverse_part, factor_part, part_of};
ghost use Rattle.subgroups.specs.Ends.{DoubledEnds};

use crate::Part;
use crate::asking::of_inverses;
use crate::signing::INVERSE;
use words::Letters;

// What stands for no factor: the empty part at the start of the given letters.
fn no_part() -> Part
    ensures { result ≡ nothing }
{
    Part {
        inverse: false,
        start: 0,
        end: 0,
    }
}

// The end before generator i, 0 for the first.
fn end_before(ends: &[u16], i: usize) -> u16
    requires { i ≤ length ends.now }
    ensures { result ≡ get_or (0 ∷ ends.now) i 0 }
{
    if i == 0 {
        return 0;
    }
    ends[i - 1]
}

// Generator i of the given list.
fn given_part(ends: &[u16], i: usize) -> Part
    ensures { result ≡ pick (ltb i (length ends.now)) (given_part ends.now i) nothing }
{
    if i < ends.len() {
        return Part {
            inverse: false,
            start: end_before(ends, i),
            end: ends[i],
        };
    }
    no_part()
}

// The inverse of generator i, by the ends of a list of `generators` generators, of `given` letters together, and as many inverses behind them.
fn inverse_part(ends: &[u16], generators: usize, given: Letters, i: usize) -> Part
    requires { (gens : List Word) × DoubledEnds gens ends.now generators given.0 }
    ensures { (gens : List Word) → DoubledEnds gens ends.now generators given.0 → result ≡ pick (ltb i generators) (inverse_part gens i) nothing }
{
    if i < generators {
        return Part {
            inverse: true,
            start: end_before(ends, generators + i) - given.0,
            end: ends[generators + i] - given.0,
        };
    }
    no_part()
}

// The factor of a signed number, by the given ends and by those of the list with its inverses.
fn factor_part(ends: &[u16], list_ends: &[u16], given: Letters, number: u8) -> Part
    requires { (gens : List Word) × DoubledEnds gens list_ends.now (length ends.now) given.0 }
    ensures { (gens : List Word) → DoubledEnds gens list_ends.now (length ends.now) given.0 → result ≡ factor_part gens ends.now number }
{
    if number < INVERSE {
        return given_part(ends, number as usize);
    }
    inverse_part(list_ends, ends.len(), given, (number - INVERSE) as usize)
}

// The questions are those of the list, and 14 for an inverse slice of `inverses` bytes.
pub(crate) fn part(bytes: &[u8], ends: &[u16], inverses: usize, number: u8) -> Part
    ensures { result ≡ part_of bytes.now ends.now inverses number }
{
    let mut list_letters = [0u8; limits::SIGNED_ROOM];
    let mut list_ends = [0u16; limits::SIGNED_GENERATORS];
    match lists::reduce_signed(bytes, ends, &mut list_letters, &mut list_ends) {
        Err(_) => no_part(),
        Ok(lengths) => match of_inverses(inverses) {
            Err(_) => no_part(),
            Ok(()) => factor_part(ends, &list_ends, lengths.given, number),
        },
    }
}
