// Document 01's worked values and edges of the bounded verdict, one call to a line: the list's letters and ends, the target and n; the
// verdict; of each table, which was full of 65,535, how many entries are 0 and how many are still full; of the witness, which was full of
// 255, the first bytes and how many are still full. What it must print stands in `stdout`.
#![tactic(auto)]

ghost use Rattle.std.specs.Prelude.{◌^◌, ◌<◌};
ghost use Rattle.engine.specs.Calls.{Verdict, Judges};

use std::io;
use std::io::Write;
use words::Factors;

// Enough for q up to 20, and for the largest q of all: 320 letters, a target of 80.
const TABLE: usize = 400;

const LARGEST_TABLE: usize = 231361;

// Enough for q = 15, and one entry less.
const ENOUGH: usize = 225;

const TOO_SHORT: usize = 224;

// Just enough for q = 161, by 160 letters and an empty target.
const SQUARE: usize = 25921;

// Enough for the largest n, and for one more.
const WITNESS: usize = 1000;

const LONG_WITNESS: usize = 1001;

// The most generators and the most letters that pass questions 7 and 8, and one more.
const GENERATORS: usize = 64;

const TOO_MANY_GENERATORS: usize = 65;

const LETTERS: usize = 4096;

const TOO_MANY_LETTERS: usize = 4097;

fn judge(
    output: &mut impl Write,
    bytes: &[u8],
    ends: &[u16],
    target: &[u8],
    n: u16,
    first: &mut [u16],
    second: &mut [u16],
    witness: &mut [u8],
) -> io::Result<()>
    ensures { (verdict : Verdict) × Judges bytes.now ends.now target.now n verdict
        (record { first = first.old; second = second.old; witness = witness.old })
        (record { first = first.new; second = second.new; witness = witness.new }) }
{
    let verdict = engine::judge(bytes, ends, target, Factors(n), first, second, witness);
    showing::lists::call(output, bytes, ends, target, n)?;
    showing::verdict(output, verdict)?;
    showing::lent::table(output, first)?;
    showing::lent::table(output, second)?;
    showing::lent::witness(output, witness)?;
    writeln!(output)
}

// Lends two tables of so many entries, full of 65,535, and a witness of so many bytes, full of 255.
fn lending<const ENTRIES: usize, const BYTES: usize>(
    output: &mut impl Write,
    bytes: &[u8],
    ends: &[u16],
    target: &[u8],
    n: u16,
) -> io::Result<()>
    requires entries { ENTRIES < 2 ^ 32 }
    requires witness { BYTES < 2 ^ 32 }
{
    let mut first = [65535u16; ENTRIES];
    let mut second = [65535u16; ENTRIES];
    let mut witness = [255u8; BYTES];
    judge(
        output,
        bytes,
        ends,
        target,
        n,
        &mut first,
        &mut second,
        &mut witness,
    )
}

fn small(
    output: &mut impl Write,
    bytes: &[u8],
    ends: &[u16],
    target: &[u8],
    n: u16,
) -> io::Result<()> {
    lending::<TABLE, WITNESS>(output, bytes, ends, target, n)
}

fn large(
    output: &mut impl Write,
    bytes: &[u8],
    ends: &[u16],
    target: &[u8],
    n: u16,
) -> io::Result<()> {
    lending::<LARGEST_TABLE, WITNESS>(output, bytes, ends, target, n)
}

fn without_list(output: &mut impl Write, target: &[u8], n: u16) -> io::Result<()> {
    let ends = [0u16; 0];
    small(output, b"", &ends, target, n)
}

// P8 to P12
fn worked_values(output: &mut impl Write) -> io::Result<()> {
    without_list(output, b"", 0)?;
    without_list(output, b"R", 1000)?;
    let two = [2u16, 3];
    small(output, b"RSS", &two, b"R", 3)?;
    small(output, b"RSS", &two, b"R", 2)?;
    let three = [4u16, 5, 9];
    small(output, b"RSRSSSRSS", &three, b"R", 3)?;
    small(output, b"RSRSSSRSS", &three, b"R", 2)?;
    let one = [3u16];
    small(output, b"SSS", &one, b"", 5)
}

// No generators or no factors, and generators that are empty or reduce to nothing.
fn empty_words(output: &mut impl Write) -> io::Result<()> {
    without_list(output, b"", 1000)?;
    without_list(output, b"SRRSS", 1000)?;
    without_list(output, b"R", 0)?;
    let one = [1u16];
    small(output, b"R", &one, b"", 0)?;
    small(output, b"R", &one, b"R", 0)?;
    small(output, b"R", &one, b"R", 1)?;
    let empty = [0u16];
    small(output, b"", &empty, b"", 1000)?;
    small(output, b"", &empty, b"R", 1000)?;
    let empty_before_r = [0u16, 1];
    small(output, b"R", &empty_before_r, b"R", 1000)?;
    let vanishing_before_s = [5u16, 9];
    small(output, b"RSSSRSSSS", &vanishing_before_s, b"SSSS", 1000)
}

// Relations, products of the identity: R twice, S three times, S and SS; P11's list with R behind it, where the third generator is its own inverse. No power
// of SR is one.
fn relations(output: &mut impl Write) -> io::Result<()> {
    let one = [1u16];
    small(output, b"R", &one, b"", 2)?;
    small(output, b"R", &one, b"", 1)?;
    small(output, b"S", &one, b"", 1000)?;
    let s_before_ss = [1u16, 3];
    small(output, b"SSS", &s_before_ss, b"", 1000)?;
    let eleven_and_r = [4u16, 5, 9, 10];
    small(output, b"RSRSSSRSSR", &eleven_and_r, b"", 4)?;
    let two = [2u16];
    small(output, b"SR", &two, b"", 1000)
}

// A generator of 80 letters and its inverse, which has 80 too. No two of their suffixes are the same, so there are as many states as q is, and the tables
// are used to their last entries.
fn whole_square(output: &mut impl Write) -> io::Result<()> {
    let ends = [80u16, 160];
    lending::<SQUARE, WITNESS>(
        output,
        b"RSRSSRSRSSRSRSSRSRSSRSRSSRSRSSRSRSSRSRSSRSRSSRSRSSRSRSSRSRSSRSRSSRSRSSRSRSSRSRSSSRSSRSRSSRSRSSRSRSSRSRSSRSRSSRSRSSRSRSSRSRSSRSRSSRSRSSRSRSSRSRSSRSRSSRSRSSRSRSSR",
        &ends,
        b"",
        2,
    )
}

// The count is the bound, is above it, and is far below it.
fn bounds(output: &mut impl Write) -> io::Result<()> {
    let ends = [2u16];
    small(output, b"SR", &ends, b"SRSRSRSR", 4)?;
    small(output, b"SR", &ends, b"SRSRSRSR", 3)?;
    small(output, b"SR", &ends, b"SRSRSRSR", 1000)
}

// Several least series: the first is written. Equal generators; an empty one before them; S and SS, RS and R, and R twice, by which words are made in
// several ways.
fn firsts(output: &mut impl Write) -> io::Result<()> {
    let equal = [1u16, 2, 3];
    small(output, b"RRR", &equal, b"R", 1000)?;
    let empty_before_equal = [0u16, 1, 2];
    small(output, b"SS", &empty_before_equal, b"SS", 1000)?;
    let many = [1u16, 3, 5, 6];
    small(output, b"SSSRSR", &many, b"RSS", 1000)?;
    small(output, b"SSSRSR", &many, b"SRSSR", 1000)?;
    small(output, b"SSSRSR", &many, b"RSR", 1000)?;
    let turned = [1u16, 2, 4, 6];
    small(output, b"RRSSSS", &turned, b"RSSRS", 1000)
}

// As many generators as there may be, of which the last is R and the others are empty, and one more.
fn many_generators(output: &mut impl Write) -> io::Result<()> {
    let mut ends = [0u16; GENERATORS];
    ends[63] = 1;
    small(output, b"R", &ends, b"R", 1000)?;
    let mut too_many = [0u16; TOO_MANY_GENERATORS];
    too_many[64] = 1;
    small(output, b"R", &too_many, b"R", 1000)
}

// As many letters as there may be, which reduce to nothing, and one more.
fn many_letters(output: &mut impl Write) -> io::Result<()> {
    let letters = [b'R'; LETTERS];
    let ends = [4096u16];
    small(output, &letters, &ends, &letters, 1000)?;
    small(output, &letters, &ends, b"R", 1000)?;
    let too_many = [b'R'; TOO_MANY_LETTERS];
    let too_far = [4097u16];
    small(output, &too_many, &too_far, b"R", 1000)?;
    small(output, &letters, &ends, &too_many, 1000)
}

// Question 9
fn wrong_ends(output: &mut impl Write) -> io::Result<()> {
    let falling = [2u16, 1, 3];
    small(output, b"RSS", &falling, b"R", 3)?;
    let falling_twice = [65535u16, 3, 2];
    small(output, b"RSS", &falling_twice, b"R", 3)?;
    let too_early = [1u16, 2];
    small(output, b"RSS", &too_early, b"R", 3)?;
    let too_late = [2u16, 4];
    small(output, b"RSS", &too_late, b"R", 3)?;
    let none = [0u16; 0];
    small(output, b"RSS", &none, b"R", 3)
}

// Question 10
fn wrong_letters(output: &mut impl Write) -> io::Result<()> {
    let ends = [2u16, 3];
    small(output, b"XSS", &ends, b"R", 3)?;
    small(output, b"RSs", &ends, b"X", 3)?;
    small(output, b"RSS", &ends, b"X", 3)?;
    small(output, b"RSS", &ends, b"RSRX", 3)?;
    without_list(output, b"RX", 3)
}

// Question 11: 81 letters, and 81 that reduce to one; a sum of 320 and then an R, and the same R earlier.
fn long_generators(output: &mut impl Write) -> io::Result<()> {
    let second = [2u16, 83];
    small(
        output,
        b"SRRSSRSSRSSRSSRSSRSSRSSRSSRSSRSSRSSRSSRSSRSSRSSRSSRSSRSSRSSRSSRSSRSSRSSRSSRSSRSSRSS",
        &second,
        b"R",
        3,
    )?;
    let reducible = [81u16];
    small(
        output,
        b"RRRRRRRRRRRRRRRRRRRRRRRRRRRRRRRRRRRRRRRRRRRRRRRRRRRRRRRRRRRRRRRRRRRRRRRRRRRRRRRRR",
        &reducible,
        b"R",
        3,
    )?;
    let fifth = [80u16, 160, 240, 320, 321];
    small(
        output,
        b"SRSRSRSRSRSRSRSRSRSRSRSRSRSRSRSRSRSRSRSRSRSRSRSRSRSRSRSRSRSRSRSRSRSRSRSRSRSRSRSRRSRSRSRSRSRSRSRSRSRSRSRSRSRSRSRSRSRSRSRSRSRSRSRSRSRSRSRSRSRSRSRSRSRSRSRSRSRSRSRSSSRSSRSSRSSRSSRSSRSSRSSRSSRSSRSSRSSRSSRSSRSSRSSRSSRSSRSSRSSRSSRSSRSSRSSRSSRSSRSSRSSRSSRSSRSSRSRSRSRSRSRSRSRSRSRSRSRSRSRSRSRSRSRSRSRSRSRSRSRSRSRSRSRSRSRSRSRSRSRSR",
        &fifth,
        b"R",
        3,
    )?;
    let fourth = [80u16, 160, 240, 321];
    small(
        output,
        b"SRSRSRSRSRSRSRSRSRSRSRSRSRSRSRSRSRSRSRSRSRSRSRSRSRSRSRSRSRSRSRSRSRSRSRSRSRSRSRSRRSRSRSRSRSRSRSRSRSRSRSRSRSRSRSRSRSRSRSRSRSRSRSRSRSRSRSRSRSRSRSRSRSRSRSRSRSRSRSRSSSRSSRSSRSSRSSRSSRSSRSSRSSRSSRSSRSSRSSRSSRSSRSSRSSRSSRSSRSSRSSRSSRSSRSSRSSRSSRSSRSSRSSRSSRSSRSRSRSRSRSRSRSRSRSRSRSRSRSRSRSRSRSRSRSRSRSRSRSRSRSRSRSRSRSRSRSRSRSRSR",
        &fourth,
        b"R",
        3,
    )
}

// Question 13
fn bounds_too_large(output: &mut impl Write) -> io::Result<()> {
    let mut first = [65535u16; TABLE];
    let mut second = [65535u16; TABLE];
    let mut witness = [255u8; LONG_WITNESS];
    let ends = [2u16, 3];
    judge(
        output,
        b"RSS",
        &ends,
        b"R",
        1001,
        &mut first,
        &mut second,
        &mut witness,
    )?;
    judge(
        output,
        b"RSS",
        &ends,
        b"R",
        65535,
        &mut first,
        &mut second,
        &mut witness,
    )?;
    judge(
        output,
        b"RSS",
        &ends,
        b"R",
        1000,
        &mut first,
        &mut second,
        &mut witness,
    )
}

// Question 14: n 0 with no witness, and P10 with a witness of 2 bytes and of 3.
fn witness_rooms(output: &mut impl Write) -> io::Result<()> {
    let mut first = [65535u16; TABLE];
    let mut second = [65535u16; TABLE];
    let mut none = [255u8; 0];
    let mut two = [255u8; 2];
    let mut three = [255u8; 3];
    let ends = [2u16, 3];
    judge(
        output,
        b"RSS",
        &ends,
        b"",
        0,
        &mut first,
        &mut second,
        &mut none,
    )?;
    judge(
        output,
        b"RSS",
        &ends,
        b"R",
        3,
        &mut first,
        &mut second,
        &mut two,
    )?;
    judge(
        output,
        b"RSS",
        &ends,
        b"R",
        3,
        &mut first,
        &mut second,
        &mut three,
    )
}

// Question 15: q is 15.
fn table_rooms(output: &mut impl Write) -> io::Result<()> {
    let mut first = [65535u16; ENOUGH];
    let mut second = [65535u16; ENOUGH];
    let mut short = [65535u16; TOO_SHORT];
    let mut witness = [255u8; WITNESS];
    let ends = [2u16];
    judge(
        output,
        b"SR",
        &ends,
        b"SRSRSR",
        3,
        &mut short,
        &mut second,
        &mut witness,
    )?;
    judge(
        output,
        b"SR",
        &ends,
        b"SRSRSR",
        3,
        &mut first,
        &mut short,
        &mut witness,
    )?;
    judge(
        output,
        b"SR",
        &ends,
        b"SRSRSR",
        3,
        &mut first,
        &mut second,
        &mut witness,
    )
}

fn lending_nothing(
    output: &mut impl Write,
    bytes: &[u8],
    ends: &[u16],
    target: &[u8],
    n: u16,
) -> io::Result<()> {
    lending::<0, 0>(output, bytes, ends, target, n)
}

// At first the answer to every question from 7 to 15 is no, and then from call to call one more is yes.
fn lowest_of_many(output: &mut impl Write) -> io::Result<()> {
    let far_too_many = [b'X'; TOO_MANY_LETTERS];
    let too_many_ends = [0u16; TOO_MANY_GENERATORS];
    lending_nothing(output, &far_too_many, &too_many_ends, &far_too_many, 1001)?;
    let wrong_ends = [0u16; GENERATORS];
    lending_nothing(output, &far_too_many, &wrong_ends, &far_too_many, 1001)?;
    let wrong_letters = [b'X'; LETTERS];
    lending_nothing(output, &wrong_letters, &wrong_ends, &far_too_many, 1001)?;
    lending_nothing(output, &wrong_letters, &wrong_ends, &wrong_letters, 1001)?;
    let ends = [4096u16; GENERATORS];
    lending_nothing(output, &wrong_letters, &ends, &wrong_letters, 1001)?;
    let one = [81u16];
    lending_nothing(
        output,
        b"RSSRSSRSSRSSRSSRSSRSSRSSRSSRSSRSSRSSRSSRSSRSSRSSRSSRSSRSSRSSRSSRSSRSSRSSRSSRSSRSS",
        &one,
        &wrong_letters,
        1001,
    )
}

fn lowest_of_the_rest(output: &mut impl Write) -> io::Result<()> {
    let long = [81u16];
    lending_nothing(
        output,
        b"RSSRSSRSSRSSRSSRSSRSSRSSRSSRSSRSSRSSRSSRSSRSSRSSRSSRSSRSSRSSRSSRSSRSSRSSRSSRSSRSS",
        &long,
        b"RSSRSSRSSRSSRSSRSSRSSRSSRSSRSSRSSRSSRSSRSSRSSRSSRSSRSSRSSRSSRSSRSSRSSRSSRSSRSSRSS",
        1001,
    )?;
    let ends = [2u16];
    lending_nothing(
        output,
        b"SR",
        &ends,
        b"RSSRSSRSSRSSRSSRSSRSSRSSRSSRSSRSSRSSRSSRSSRSSRSSRSSRSSRSSRSSRSSRSSRSSRSSRSSRSSRSS",
        1001,
    )?;
    lending_nothing(output, b"SR", &ends, b"SRSRSR", 1001)?;
    lending_nothing(output, b"SR", &ends, b"SRSRSR", 1000)?;
    lending::<0, WITNESS>(output, b"SR", &ends, b"SRSRSR", 1000)?;
    small(output, b"SR", &ends, b"SRSRSR", 1000)
}

// Targets of 80, 82, 78 and 81 letters: powers of T.
fn long_targets(output: &mut impl Write) -> io::Result<()> {
    let ends = [2u16];
    large(
        output,
        b"SR",
        &ends,
        b"SRSRSRSRSRSRSRSRSRSRSRSRSRSRSRSRSRSRSRSRSRSRSRSRSRSRSRSRSRSRSRSRSRSRSRSRSRSRSRSR",
        1000,
    )?;
    large(
        output,
        b"SR",
        &ends,
        b"SRSRSRSRSRSRSRSRSRSRSRSRSRSRSRSRSRSRSRSRSRSRSRSRSRSRSRSRSRSRSRSRSRSRSRSRSRSRSRSRSR",
        1000,
    )?;
    let inverse_ends = [3u16];
    large(
        output,
        b"RSS",
        &inverse_ends,
        b"RSSRSSRSSRSSRSSRSSRSSRSSRSSRSSRSSRSSRSSRSSRSSRSSRSSRSSRSSRSSRSSRSSRSSRSSRSSRSS",
        1000,
    )?;
    large(
        output,
        b"RSS",
        &inverse_ends,
        b"RSSRSSRSSRSSRSSRSSRSSRSSRSSRSSRSSRSSRSSRSSRSSRSSRSSRSSRSSRSSRSSRSSRSSRSSRSSRSSRSS",
        1000,
    )
}

// Four generators of 80 letters, each with an even number of R's.
fn four_of_80(output: &mut impl Write, target: &[u8], n: u16) -> io::Result<()> {
    let ends = [80u16, 160, 240, 320];
    large(
        output,
        b"SRSRSRSRSRSRSRSRSRSRSRSRSRSRSRSRSRSRSRSRSRSRSRSRSRSRSRSRSRSRSRSRSRSRSRSRSRSRSRSRRSRSRSRSRSRSRSRSRSRSRSRSRSRSRSRSRSRSRSRSRSRSRSRSRSRSRSRSRSRSRSRSRSRSRSRSRSRSRSRSSSRSSRSSRSSRSSRSSRSSRSSRSSRSSRSSRSSRSSRSSRSSRSSRSSRSSRSSRSSRSSRSSRSSRSSRSSRSSRSSRSSRSSRSSRSSRSRSRSRSRSRSRSRSRSRSRSRSRSRSRSRSRSRSRSRSRSRSRSRSRSRSRSRSRSRSRSRSRSRS",
        &ends,
        target,
        n,
    )
}

// The largest tables: the target is the third generator, or has an odd number of R's, which no product of them has.
fn largest_calls(output: &mut impl Write) -> io::Result<()> {
    four_of_80(
        output,
        b"SSRSSRSSRSSRSSRSSRSSRSSRSSRSSRSSRSSRSSRSSRSSRSSRSSRSSRSSRSSRSSRSSRSSRSSRSSRSSRSS",
        1,
    )?;
    four_of_80(
        output,
        b"RSSRSSRSSRSSRSSRSSRSSRSSRSSRSSRSSRSSRSSRSSRSSRSSRSSRSSRSSRSSRSSRSSRSSRSSRSSRSSRS",
        1000,
    )
}

fn main(rt: HostRuntime) -> io::Result<()> {
    let output = &mut rt.stdout();
    worked_values(output)?;
    empty_words(output)?;
    relations(output)?;
    whole_square(output)?;
    bounds(output)?;
    firsts(output)?;
    many_generators(output)?;
    many_letters(output)?;
    wrong_ends(output)?;
    wrong_letters(output)?;
    long_generators(output)?;
    bounds_too_large(output)?;
    witness_rooms(output)?;
    table_rooms(output)?;
    lowest_of_many(output)?;
    lowest_of_the_rest(output)?;
    long_targets(output)?;
    largest_calls(output)
}
