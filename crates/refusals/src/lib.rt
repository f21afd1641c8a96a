// Why a call refuses, and the questions at the door that concern words. `specs/Questions.antt` has each question; a call puts its own in rising
// order.
#![tactic(auto)]

ghost use Rattle.std.specs.Prelude.{true, ◌≡◌, ◌≤◌, length};
ghost use Rattle.refusals.specs.Telling.{Tells};
ghost use Rattle.refusals.specs.Questions.{is_letter, first_other, of_letters, of_word, number as number_of, place as place_of};

use std::error::Error;
use std::fmt;

// Why a call refuses: the first question answered no, with its place where it names one. `number` and `place` of specs/ give
// document 01's numbers.
#[derive(Clone, Copy, Debug, PartialEq, Eq)]
pub enum Refusal {
    CardTooLong,
    BitMapWrong,
    FieldCut(usize),
    SpareByte(usize),
    EntryTooLarge(usize),
    DeterminantNotOne,
    TooManyGenerators,
    TooManyLetters,
    EndsWrong(usize),
    NotALetter(usize),
    GeneratorTooLong(usize),
    NormalFormTooLong,
    BoundTooLarge,
    OutputTooShort,
    TableTooShort,
    MatrixTooLarge,
}

impl fmt::Display for Refusal {
    fn fmt<W: fmt::Write>(&self, f: &mut fmt::Formatter<W>) -> fmt::Result {
        write!(f, "refused {} {}", number(*self), place(*self))
    }
}

impl Error for Refusal {}

fn is_letter(b: u8) -> bool
    ensures { result ≡ is_letter b }
{
    matches!(b, b'R' | b'S')
}

// Whether every byte so far was a letter, and this one is too.
fn letter_too(so_far: bool, b: u8) -> bool
    ensures { Tells result ((so_far ≡ true) × (is_letter b ≡ true)) }
{
    if is_letter(b) {
        return so_far;
    }
    false
}

// Whether every byte is a letter. No early end, so that the loop runs on many bytes at once.
fn all_letters(word: &[u8]) -> bool
    ensures { Tells result (length word.now ≤ first_other word.now) }
{
    let mut all = true;
    for byte in word {
        all = letter_too(all, *byte);
    }
    all
}

// The index of the first byte that is no letter, or the length where each byte is one.
fn find_other(word: &[u8]) -> usize
    ensures { result ≡ first_other word.now }
{
    for (i, byte) in word.iter().enumerate() {
        if !is_letter(*byte) {
            return i;
        }
    }
    word.len()
}

// The same. Most words have only letters, which `all_letters` tells sooner.
pub fn first_other(word: &[u8]) -> usize
    ensures { result ≡ first_other word.now }
{
    if all_letters(word) {
        return word.len();
    }
    find_other(word)
}

// Questions 8 and 10 of a single word.
pub fn of_letters(word: &[u8]) -> Result<(), Refusal>
    ensures { result ≡ of_letters word.now }
{
    if limits::WORD_LETTERS < word.len() {
        return Err(Refusal::TooManyLetters);
    }
    let other = first_other(word);
    if other < word.len() {
        return Err(Refusal::NotALetter(other));
    }
    Ok(())
}

// Questions 8, 10 and 14 of a single word, where `needed` is the room asked for.
pub fn of_word(word: &[u8], needed: usize, room: usize) -> Result<(), Refusal>
    ensures { result ≡ of_word word.now needed room }
{
    of_letters(word)?;
    if room < needed {
        return Err(Refusal::OutputTooShort);
    }
    Ok(())
}

// Document 01's number of the question that a refusal answers no to.
pub fn number(refusal: Refusal) -> u8
    ensures { result ≡ number_of refusal }
{
    match refusal {
        Refusal::CardTooLong => 1,
        Refusal::BitMapWrong => 2,
        Refusal::FieldCut(_) => 3,
        Refusal::SpareByte(_) => 4,
        Refusal::EntryTooLarge(_) => 5,
        Refusal::DeterminantNotOne => 6,
        Refusal::TooManyGenerators => 7,
        Refusal::TooManyLetters => 8,
        Refusal::EndsWrong(_) => 9,
        Refusal::NotALetter(_) => 10,
        Refusal::GeneratorTooLong(_) => 11,
        Refusal::NormalFormTooLong => 12,
        Refusal::BoundTooLarge => 13,
        Refusal::OutputTooShort => 14,
        Refusal::TableTooShort => 15,
        Refusal::MatrixTooLarge => 16,
    }
}

// The place that it names, 0 where it names none.
pub fn place(refusal: Refusal) -> usize
    ensures { result ≡ place_of refusal }
{
    match refusal {
        Refusal::CardTooLong => 0,
        Refusal::BitMapWrong => 0,
        Refusal::FieldCut(at) => at,
        Refusal::SpareByte(at) => at,
        Refusal::EntryTooLarge(at) => at,
        Refusal::DeterminantNotOne => 0,
        Refusal::TooManyGenerators => 0,
        Refusal::TooManyLetters => 0,
        Refusal::EndsWrong(at) => at,
        Refusal::NotALetter(at) => at,
        Refusal::GeneratorTooLong(at) => at,
        Refusal::NormalFormTooLong => 0,
        Refusal::BoundTooLarge => 0,
        Refusal::OutputTooShort => 0,
        Refusal::TableTooShort => 0,
        Refusal::MatrixTooLarge => 0,
    }
}
