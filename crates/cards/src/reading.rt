// A card's fields, one behind the other. Each function reads one field at the front of some bytes, and answers what it says and the bytes behind it, or
// nothing where the field is cut off.
ghost use Rattle.std.specs.Prelude.{◌≡◌, false, ◌<◌, ◌^◌};
ghost use Rattle.fields.specs.Field.{signed_field, letters_field};
ghost use Rattle.refusals.specs.Telling.{pick};
ghost use Rattle.cards.specs.Card.{bit as bit_of, bound_field, matrix_field, letters_target, matrix_target, target_field, generator_fields, counted_list, list_field};
ghost use Rattle.cards.specs.Reading.{NumberIs, LettersAre, BoundIs, MatrixIs, TargetIs, Skips, ListIs};

use fields::reader::{byte_after, short_after};
use matrices::Matrix;
use words::Factors;

// What n a card asks without the field. Question 13 has the same number, for another reason.
const DEFAULT_BOUND: u16 = 1000;

// The bits of the map: which fields a card has.
const BOUND: u32 = 0;

const LETTERS: u32 = 1;

const MATRIX: u32 = 2;

const LIST: u32 = 3;

// A target, by its letters or by its matrix.
#[derive(Clone, Copy)]
pub(crate) enum Goal<'a> {
    Letters(&'a [u8]),
    Entries(Matrix),
}

// How many generators a list has, and the card from the first one's length on.
#[derive(Clone, Copy)]
pub(crate) struct Generators<'a> {
    pub(crate) count: usize,
    pub(crate) bytes: &'a [u8],
}

// Is this bit set?
fn has(map: u8, bit: u32) -> bool
    requires { bit < 8 }
    ensures { result ≡ bit_of (2 ^ bit) map }
{
    map >> bit & 1 == 1
}

// Are bits 1 and 2 both set?
pub(crate) fn both_targets(map: u8) -> bool
    ensures { result ≡ pick (bit_of 2 map) (bit_of 4 map) false }
{
    has(map, LETTERS) && has(map, MATRIX)
}

fn signed(card: &[u8]) -> Option<(i64, &[u8])>
    ensures { NumberIs (signed_field card.now) result }
{
    let z = fields::signed_after(card, 0)?;
    Some((z, &card[8..]))
}

// Letters with their length in front.
pub(crate) fn letters(card: &[u8]) -> Option<(&[u8], &[u8])>
    ensures { LettersAre (letters_field card.now) result }
{
    let span = fields::letters_after(card, 0)?;
    Some((&card[span.start..span.end], &card[span.end..]))
}

pub(crate) fn bound(map: u8, card: &[u8]) -> Option<(Factors, &[u8])>
    ensures { BoundIs (bound_field map card.now) result }
{
    if !has(map, BOUND) {
        return Some((Factors(DEFAULT_BOUND), card));
    }
    let n = short_after(card, 0)?;
    Some((Factors(n), &card[2..]))
}

fn matrix(card: &[u8]) -> Option<(Matrix, &[u8])>
    ensures { MatrixIs (matrix_field card.now) result }
{
    let (a, card) = signed(card)?;
    let (b, card) = signed(card)?;
    let (c, card) = signed(card)?;
    let (d, card) = signed(card)?;
    Some((Matrix { a, b, c, d }, card))
}

pub(crate) fn target(map: u8, card: &[u8]) -> Option<(Goal<'_>, &[u8])>
    ensures { TargetIs (target_field map card.now) result }
{
    if has(map, LETTERS) {
        let (letters, card) = letters(card)?;
        return Some((Goal::Letters(letters), card));
    }
    if has(map, MATRIX) {
        let (m, card) = matrix(card)?;
        return Some((Goal::Entries(m), card));
    }
    Some((Goal::Letters(&[]), card))
}

// The bytes behind `count` generators.
fn skip(count: usize, card: &[u8]) -> Option<&[u8]>
    ensures { Skips (generator_fields count card.now) result }
{
    let mut rest = card;
    for _ in 0..count {
        rest = letters(rest)?.1;
    }
    Some(rest)
}

// The generators behind their number.
fn counted_list(card: &[u8]) -> Option<(Generators<'_>, &[u8])>
    ensures { ListIs (counted_list card.now) result }
{
    let count = byte_after(card, 0)? as usize;
    let bytes = &card[1..];
    let card = skip(count, bytes)?;
    Some((Generators { count, bytes }, card))
}

pub(crate) fn list(map: u8, card: &[u8]) -> Option<(Generators<'_>, &[u8])>
    ensures { ListIs (list_field map card.now) result }
{
    if has(map, LIST) {
        return counted_list(card);
    }
    Some((
        Generators {
            count: 0,
            bytes: card,
        },
        card,
    ))
}
