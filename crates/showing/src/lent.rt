// What lent slices hold after a call, as the trials print it.
ghost use Rattle.std.specs.Prelude.{◌≡◌, count_by};

use crate::number;
use std::io;
use std::io::Write;

// How many items have the value. Counted by a loop, which takes many items at once: a filter takes them one by one.
fn count<T: PartialEq>(items: &[T], value: &T) -> usize
    ensures { result ≡ count_by (λ item. T.eq item value.now) items.now }
{
    let mut count = 0;
    for item in items {
        if item == value {
            count += 1;
        }
    }
    count
}

// How many entries of a table are 0, and how many are as they were.
pub fn table(output: &mut impl Write, entries: &[u16]) -> io::Result<()> {
    let zero = count(entries, &0);
    let full = count(entries, &65535);
    write!(output, "; {zero} zero, {full} full")
}

fn factors(output: &mut impl Write, bytes: &[u8]) -> io::Result<()> {
    for factor in bytes {
        number(output, u16::from(*factor))?;
    }
    Ok(())
}

// At most the first six bytes.
fn first_factors(output: &mut impl Write, bytes: &[u8]) -> io::Result<()> {
    if bytes.len() <= 6 {
        factors(output, bytes)
    } else {
        factors(output, &bytes[..6])
    }
}

// The first bytes of the witness, and how many are as they were.
pub fn witness(output: &mut impl Write, bytes: &[u8]) -> io::Result<()> {
    write!(output, ";")?;
    first_factors(output, bytes)?;
    let full = count(bytes, &255);
    write!(output, ", {full} full")
}

// The letters in front of a slice that was full of dots, and how many dots are left.
pub fn letters(output: &mut impl Write, bytes: &[u8]) -> io::Result<()> {
    let dots = count(bytes, &46);
    write!(output, "; '")?;
    crate::word(output, &bytes[..bytes.len() - dots])?;
    write!(output, "', {dots} dots")
}
