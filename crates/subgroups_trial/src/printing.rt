// What the trial prints of a factor: the call and the part.
use showing::number;
use std::io;
use std::io::Write;
use subgroups::Part;

// The list, the length of the inverse slice, and the factor's number.
pub(crate) fn factor(
    output: &mut impl Write,
    bytes: &[u8],
    ends: &[u16],
    inverses: usize,
    factor: u8,
) -> io::Result<()> {
    showing::lists::list(output, bytes, ends)?;
    write!(output, ", {inverses} bytes, factor")?;
    number(output, u16::from(factor))?;
    write!(output, ": ")
}

// Of which slice, and from where to where.
pub(crate) fn part(output: &mut impl Write, part: Part) -> io::Result<()> {
    if part.inverse {
        write!(output, "inverse")?;
    } else {
        write!(output, "given")?;
    }
    number(output, part.start)?;
    number(output, part.end)
}
