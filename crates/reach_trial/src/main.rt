// Worked values and edges of the unbounded verdict, one call to a line: the list's letters and ends, and the target; the verdict; of each table, which was full
// of 65,535, how many entries are 0 and how many are still full. What it must print stands in `stdout`.
#![tactic(auto)]

ghost use Rattle.std.specs.Prelude.{◌^◌, ◌<◌};
ghost use Rattle.reach.specs.Calls.{Reached, Reaches};

use std::io;
use std::io::Write;
use words::Refusal;

// Enough for q up to 20, and for the largest q of all: 320 letters, a target of 80.
const TABLE: usize = 400;

const LARGEST_TABLE: usize = 231361;

// Enough for q = 15, and one entry less.
const ENOUGH: usize = 225;

const TOO_SHORT: usize = 224;

// Just enough for q = 161, by 160 letters and an empty target.
const SQUARE: usize = 25921;

fn call(output: &mut impl Write, bytes: &[u8], ends: &[u16], target: &[u8]) -> io::Result<()> {
    showing::lists::list(output, bytes, ends)?;
    write!(output, ", '")?;
    showing::word(output, target)?;
    write!(output, "': ")
}

fn verdict(output: &mut impl Write, answer: Result<bool, Refusal>) -> io::Result<()> {
    match answer {
        Ok(true) => write!(output, "yes"),
        Ok(false) => write!(output, "no"),
        Err(refusal) => write!(output, "{refusal}"),
    }
}

fn ask(
    output: &mut impl Write,
    bytes: &[u8],
    ends: &[u16],
    target: &[u8],
    first: &mut [u16],
    second: &mut [u16],
) -> io::Result<()>
    ensures { (answer : Reached) × Reaches bytes.now ends.now target.now answer
        (record { first = first.old; second = second.old })
        (record { first = first.new; second = second.new }) }
{
    let answer = reach::reachable(bytes, ends, target, first, second);
    call(output, bytes, ends, target)?;
    verdict(output, answer)?;
    showing::lent::table(output, first)?;
    showing::lent::table(output, second)?;
    writeln!(output)
}

// Lends two tables of so many entries, full of 65,535.
fn lending<const ENTRIES: usize>(
    output: &mut impl Write,
    bytes: &[u8],
    ends: &[u16],
    target: &[u8],
) -> io::Result<()>
    requires { ENTRIES < 2 ^ 32 }
{
    let mut first = [65535u16; ENTRIES];
    let mut second = [65535u16; ENTRIES];
    ask(output, bytes, ends, target, &mut first, &mut second)
}

fn small(output: &mut impl Write, bytes: &[u8], ends: &[u16], target: &[u8]) -> io::Result<()> {
    lending::<TABLE>(output, bytes, ends, target)
}

fn large(output: &mut impl Write, bytes: &[u8], ends: &[u16], target: &[u8]) -> io::Result<()> {
    lending::<LARGEST_TABLE>(output, bytes, ends, target)
}

fn without_list(output: &mut impl Write, target: &[u8]) -> io::Result<()> {
    let ends = [0u16; 0];
    small(output, b"", &ends, target)
}

// The lists and targets of P8 to P12.
fn worked_values(output: &mut impl Write) -> io::Result<()> {
    without_list(output, b"")?;
    without_list(output, b"R")?;
    let two = [2u16, 3];
    small(output, b"RSS", &two, b"R")?;
    let three = [4u16, 5, 9];
    small(output, b"RSRSSSRSS", &three, b"R")?;
    let one = [3u16];
    small(output, b"SSS", &one, b"")
}

// No generators, and generators that are empty or reduce to nothing.
fn empty_words(output: &mut impl Write) -> io::Result<()> {
    without_list(output, b"SRRSS")?;
    let empty = [0u16];
    small(output, b"", &empty, b"")?;
    small(output, b"", &empty, b"R")?;
    let empty_before_r = [0u16, 1];
    small(output, b"R", &empty_before_r, b"R")?;
    let vanishing_before_s = [5u16, 9];
    small(output, b"RSSSRSSSS", &vanishing_before_s, b"SSSS")
}

// Relations, products of the identity: R twice, S and SS, P11's list with R behind it, T and its inverse. No power of T is one.
fn relations(output: &mut impl Write) -> io::Result<()> {
    let one = [1u16];
    small(output, b"R", &one, b"")?;
    let s_before_ss = [1u16, 3];
    small(output, b"SSS", &s_before_ss, b"")?;
    let eleven_and_r = [4u16, 5, 9, 10];
    small(output, b"RSRSSSRSSR", &eleven_and_r, b"")?;
    let t = [2u16];
    small(output, b"SR", &t, b"")?;
    let both = [2u16, 5];
    small(output, b"SRRSS", &both, b"")
}

// A generator of 80 letters and its inverse, which has 80 too. No two of their suffixes are the same, so there are as many states as q is, and the tables
// are used to their last entries.
fn whole_square(output: &mut impl Write) -> io::Result<()> {
    let ends = [80u16, 160];
    lending::<SQUARE>(
        output,
        b"RSRSSRSRSSRSRSSRSRSSRSRSSRSRSSRSRSSRSRSSRSRSSRSRSSRSRSSRSRSSRSRSSRSRSSRSRSSRSRSSSRSSRSRSSRSRSSRSRSSRSRSSRSRSSRSRSSRSRSSRSRSSRSRSSRSRSSRSRSSRSRSSRSRSSRSRSSRSRSSR",
        &ends,
        b"",
    )
}

// Powers of T: each product of SR is one, its inverse is none of them, and R is not either; with the inverse R is still none.
fn powers_of_t(output: &mut impl Write) -> io::Result<()> {
    let ends = [2u16];
    small(output, b"SR", &ends, b"SRSRSRSR")?;
    small(output, b"SR", &ends, b"RSS")?;
    small(output, b"SR", &ends, b"R")?;
    let both = [2u16, 5];
    small(output, b"SRRSS", &both, b"RSSRSS")?;
    small(output, b"SRRSS", &both, b"R")
}

// T^37, T^-26, T^-1 U^25 and T^-1 U^-34 make U with 1,217 factors and no fewer: more than any bound.
fn beyond_every_bound(output: &mut impl Write) -> io::Result<()> {
    let ends = [74u16, 152, 227, 298];
    large(
        output,
        b"SRSRSRSRSRSRSRSRSRSRSRSRSRSRSRSRSRSRSRSRSRSRSRSRSRSRSRSRSRSRSRSRSRSRSRSRSRRSSRSSRSSRSSRSSRSSRSSRSSRSSRSSRSSRSSRSSRSSRSSRSSRSSRSSRSSRSSRSSRSSRSSRSSRSSRSSRSRSSRSSRSSRSSRSSRSSRSSRSSRSSRSSRSSRSSRSSRSSRSSRSSRSSRSSRSSRSSRSSRSSRSSRSSRRSSRSRSRSRSRSRSRSRSRSRSRSRSRSRSRSRSRSRSRSRSRSRSRSRSRSRSRSRSRSRSRSRSRSRS",
        &ends,
        b"SSR",
    )
}

// Questions 7 to 12.
fn refused(output: &mut impl Write) -> io::Result<()> {
    let too_many = [0u16; 65];
    small(output, b"", &too_many, b"R")?;
    let letters = [b'R'; 4097];
    let ends = [4097u16];
    small(output, &letters, &ends, b"R")?;
    without_list(output, &letters)?;
    let falling = [2u16, 1, 3];
    small(output, b"RSS", &falling, b"R")?;
    let too_early = [1u16, 2];
    small(output, b"RSS", &too_early, b"R")?;
    let two = [2u16, 3];
    small(output, b"RSs", &two, b"X")?;
    small(output, b"RSS", &two, b"RSRX")?;
    let long = [2u16, 83];
    small(
        output,
        b"SRRSSRSSRSSRSSRSSRSSRSSRSSRSSRSSRSSRSSRSSRSSRSSRSSRSSRSSRSSRSSRSSRSSRSSRSSRSSRSSRSS",
        &long,
        b"R",
    )?;
    small(
        output,
        b"RSS",
        &two,
        b"RSSRSSRSSRSSRSSRSSRSSRSSRSSRSSRSSRSSRSSRSSRSSRSSRSSRSSRSSRSSRSSRSSRSSRSSRSSRSSRSS",
    )
}

// Question 15: q is 15.
fn table_rooms(output: &mut impl Write) -> io::Result<()> {
    let mut first = [65535u16; ENOUGH];
    let mut second = [65535u16; ENOUGH];
    let mut short = [65535u16; TOO_SHORT];
    let ends = [2u16];
    ask(output, b"SR", &ends, b"SRSRSR", &mut short, &mut second)?;
    ask(output, b"SR", &ends, b"SRSRSR", &mut first, &mut short)?;
    ask(output, b"SR", &ends, b"SRSRSR", &mut first, &mut second)
}

// The largest tables. Four generators of 80 letters, each with an even number of R's: the target is the third, or has an odd number of R's, which no product
// of them has.
fn four_of_80(output: &mut impl Write, target: &[u8]) -> io::Result<()> {
    let ends = [80u16, 160, 240, 320];
    large(
        output,
        b"SRSRSRSRSRSRSRSRSRSRSRSRSRSRSRSRSRSRSRSRSRSRSRSRSRSRSRSRSRSRSRSRSRSRSRSRSRSRSRSRRSRSRSRSRSRSRSRSRSRSRSRSRSRSRSRSRSRSRSRSRSRSRSRSRSRSRSRSRSRSRSRSRSRSRSRSRSRSRSRSSSRSSRSSRSSRSSRSSRSSRSSRSSRSSRSSRSSRSSRSSRSSRSSRSSRSSRSSRSSRSSRSSRSSRSSRSSRSSRSSRSSRSSRSSRSSRSRSRSRSRSRSRSRSRSRSRSRSRSRSRSRSRSRSRSRSRSRSRSRSRSRSRSRSRSRSRSRSRSRS",
        &ends,
        target,
    )
}

fn largest_calls(output: &mut impl Write) -> io::Result<()> {
    four_of_80(
        output,
        b"SSRSSRSSRSSRSSRSSRSSRSSRSSRSSRSSRSSRSSRSSRSSRSSRSSRSSRSSRSSRSSRSSRSSRSSRSSRSSRSS",
    )?;
    four_of_80(
        output,
        b"RSSRSSRSSRSSRSSRSSRSSRSSRSSRSSRSSRSSRSSRSSRSSRSSRSSRSSRSSRSSRSSRSSRSSRSSRSSRSSRS",
    )
}

fn main(rt: HostRuntime) -> io::Result<()> {
    let output = &mut rt.stdout();
    worked_values(output)?;
    empty_words(output)?;
    relations(output)?;
    whole_square(output)?;
    powers_of_t(output)?;
    beyond_every_bound(output)?;
    refused(output)?;
    table_rooms(output)?;
    largest_calls(output)
}
