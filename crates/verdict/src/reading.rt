// A card from standard input, to its end. A read that fails is no end: one that a signal interrupts, or for which nothing is there yet, is made again for
// a while, and any other failure is told.
ghost use Rattle.std.specs.Prelude.{◌≡◌, ◌≤◌, length, take};
ghost use Rattle.verdict.specs.Reading.{Reads, Takes, Turns, Adds, Ends, IsRead};

use crate::waiting;
use std::io;
use std::io::{ErrorKind, Read};
use std::ops::ControlFlow;
use std::time::Clock;

// How many pauses may pass in which nothing comes: 10 seconds of them.
const PAUSES: usize = 1000;

// Why there is no card: a read failed, or nothing more came in all PAUSES.
#[derive(Drop)]
pub enum ReadError {
    Failed(io::Error),
    Late,
}

// One read, where there is room: how many bytes came, 0 at the end; or none where nothing is there yet.
fn read_some<R: Read>(input: &mut R, room: &mut [u8]) -> io::Result<Option<usize>>
    ensures reads { Reads (length room.old) result }
    ensures takes { Takes (R.remaining input.old) (R.remaining input.new) room.new result }
{
    match input.read(room) {
        Ok(count) => Ok(Some(count)),
        Err(error) => match error.kind() {
            ErrorKind::Interrupted | ErrorKind::WouldBlock => Ok(None),
            _ => Err(error),
        },
    }
}

// Reads until something comes, with a pause after each read that gives nothing yet.
fn read_ready<R: Read>(
    clock: &impl Clock,
    input: &mut R,
    room: &mut [u8],
) -> io::Result<Option<usize>>
    ensures reads { Reads (length room.old) result }
    ensures takes { Takes (R.remaining input.old) (R.remaining input.new) room.new result }
{
    for _ in 0..PAUSES {
        let got = read_some(input, room)?;
        if got.is_some() {
            return Ok(got);
        }
        waiting::pause(clock);
    }
    read_some(input, room)
}

// One read behind the bytes that are there: how many there are by now, or that it was the last.
fn take_turn<R: Read>(
    clock: &impl Clock,
    input: &mut R,
    card: &mut [u8],
    used: usize,
) -> ControlFlow<Result<usize, ReadError>, usize>
    requires { used ≤ length card.old }
    ensures turns { Turns (length card.old) used result }
    ensures adds { Adds (R.remaining input.old) (R.remaining input.new) used card.new result }
    ensures card_unchanged { take used card.new ≡ take used card.old }
{
    match read_ready(clock, input, &mut card[used..]) {
        Ok(Some(0)) => ControlFlow::Break(Ok(used)),
        Ok(Some(count)) => ControlFlow::Continue(used + count),
        Ok(None) => ControlFlow::Break(Err(ReadError::Late)),
        Err(error) => ControlFlow::Break(Err(ReadError::Failed(error))),
    }
}

// How many bytes came before the end, or before there was no more room.
pub fn read_card<R: Read>(
    clock: &impl Clock,
    input: &mut R,
    card: &mut [u8],
) -> Result<usize, ReadError>
    ensures ends { Ends (length card.old) result }
    ensures is_read { IsRead (R.remaining input.old) (R.remaining input.new) card.new result }
{
    let mut used = 0;
    while used < card.len() {
        match take_turn(clock, input, card, used) {
            ControlFlow::Break(end) => return end,
            ControlFlow::Continue(more) => used = more,
        }
    }
    Ok(used)
}
