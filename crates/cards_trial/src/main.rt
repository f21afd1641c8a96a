// Query cards on standard input, each behind its length (16 bits, the low byte first), and one line for each on standard output. What it must
// print stands in `stdout`; both files are made by trials/make_cards, which says what each card tries.
#![tactic(auto)]

ghost use Rattle.std.specs.Prelude.{◌≡◌, ◌+◌, ◌*◌};

use showing::PrintError;
use std::io;
use std::io::{ErrorKind, Read, Write};

// What the program `verdict` lends.
const ENTRIES: usize = 16384;

const FACTORS: usize = limits::WITNESS_ROOM;

// The longest card that a length of 16 bits announces.
const LONGEST: usize = 65535;

// The most cards that are read.
const CARDS: usize = 10000;

// Answers a card over tables and a witness that are full of other numbers.
fn print_answer(output: &mut impl Write, card: &[u8]) -> io::Result<()> {
    let mut first = [65535u16; ENTRIES];
    let mut second = [65535u16; ENTRIES];
    let mut witness = [255u8; FACTORS];
    let answer = cards::answer_card(card, &mut first, &mut second, &mut witness);
    match showing::line(output, answer, &witness) {
        Err(PrintError::Failed(error)) => Err(error),
        Ok(()) | Err(PrintError::FactorsMissing) | Err(PrintError::TooLong) => Ok(()),
    }
}

// A number of two bytes.
fn number(low: u8, high: u8) -> usize
    ensures { result ≡ low + 256 * high }
{
    low as usize + 256 * (high as usize)
}

// Fills the room. False where the input ends before.
fn fill(input: &mut impl Read, room: &mut [u8]) -> io::Result<bool> {
    match input.read_exact(room) {
        Ok(()) => Ok(true),
        Err(error) if error.kind() == ErrorKind::UnexpectedEof => Ok(false),
        Err(error) => Err(error),
    }
}

// Reads a card into the front of `card` and answers it. False where the input ends before, or there is no room.
fn next(input: &mut impl Read, output: &mut impl Write, card: &mut [u8]) -> io::Result<bool> {
    let mut size = [0u8; 2];
    if !fill(input, &mut size)? {
        return Ok(false);
    }
    let len = number(size[0], size[1]);
    if card.len() < len {
        return Ok(false);
    }
    if !fill(input, &mut card[..len])? {
        return Ok(false);
    }
    print_answer(output, &card[..len])?;
    Ok(true)
}

fn main(rt: HostRuntime) -> io::Result<()> {
    let input = &mut rt.stdin();
    let output = &mut rt.stdout();
    let mut card = [0u8; LONGEST];
    for _ in 0..CARDS {
        if !next(input, output, &mut card)? {
            return Ok(());
        }
    }
    Ok(())
}
