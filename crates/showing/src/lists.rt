// A list as the trials print it: its letters and its ends; and what is asked of it.
use crate::number;
use std::io;
use std::io::Write;

fn numbers(output: &mut impl Write, ends: &[u16]) -> io::Result<()> {
    for end in ends {
        number(output, *end)?;
    }
    Ok(())
}

// At most six ends, or the first two and how many there are.
fn list_ends(output: &mut impl Write, ends: &[u16]) -> io::Result<()> {
    let count = ends.len();
    if count <= 6 {
        return numbers(output, ends);
    }
    numbers(output, &ends[..2])?;
    write!(output, "~{count}")
}

// The list's letters between quotes, and its ends behind them.
pub fn list(output: &mut impl Write, bytes: &[u8], ends: &[u16]) -> io::Result<()> {
    write!(output, "'")?;
    crate::word(output, bytes)?;
    write!(output, "'")?;
    list_ends(output, ends)
}

// The call of a bounded verdict: the list, the target, and n.
pub fn call(
    output: &mut impl Write,
    bytes: &[u8],
    ends: &[u16],
    target: &[u8],
    n: u16,
) -> io::Result<()> {
    list(output, bytes, ends)?;
    write!(output, ", '")?;
    crate::word(output, target)?;
    write!(output, "',")?;
    number(output, n)?;
    write!(output, ": ")
}
