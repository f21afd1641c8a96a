// Worked values and edges of lists that are taken as subgroups, one call to a line. Of a verdict: the list's letters and ends, the target and n; the verdict;
// of each table, which was full of 65,535, how many entries are 0 and how many are still full; of the witness, which was full of 255, the first bytes and how
// many are still full; of the inverse slice, which was full of dots, the letters in front and how many dots are left. Of the letters of a factor: the list, the
// length of the inverse slice and the factor's number; of which slice they are part, from where to where, and the letters. What it must print stands in
// `stdout`.
#![tactic(auto)]

mod printing;

ghost use Rattle.std.specs.Prelude.{◌≡◌, ◌^◌, ◌<◌, length, IfOk};
ghost use Rattle.engine.specs.Calls.{Verdict};
ghost use Rattle.subgroups.specs.Calls.{JudgesSigned};
ghost use Rattle.subgroups.specs.Parts.{part_of};

use std::io;
use std::io::Write;
use subgroups::Part;
use words::Factors;

// Enough for q up to 24.
const TABLE: usize = 576;

// Enough for q up to 217, by 208 letters and a target of 4; and up to 369, by a target of 80.
const MIDDLE_TABLE: usize = 47089;

const LARGE_TABLE: usize = 136161;

// Just enough for q = 201, by 200 letters and an empty target.
const SQUARE: usize = 40401;

// Enough for q = 849, by 832 letters and a target of 8, and one entry less.
const LARGEST_TABLE: usize = 720801;

const LARGEST_LESS_ONE: usize = 720800;

// One entry less than q = 18 needs.
const TOO_SHORT: usize = 323;

// Enough for the largest n, and one byte less.
const WITNESS: usize = 1000;

const SHORT_WITNESS: usize = 999;

// What the inverse slice must have, and one byte less.
const INVERSES: usize = 640;

const SHORT_INVERSES: usize = 639;

// The most generators and the most letters that pass questions 7 and 8, and one more.
const GENERATORS: usize = 64;

const TOO_MANY_GENERATORS: usize = 65;

const LETTERS: usize = 4096;

const TOO_MANY_LETTERS: usize = 4097;

fn judge(
    output: &mut impl Write,
    bytes: &[u8],
    ends: &[u16],
    target: &[u8],
    n: u16,
    first: &mut [u16],
    second: &mut [u16],
    witness: &mut [u8],
    inverses: &mut [u8],
) -> io::Result<()>
    ensures { (verdict : Verdict) × JudgesSigned bytes.now ends.now target.now n verdict
        (record { first = first.old; second = second.old; witness = witness.old })
        (record { first = first.new; second = second.new; witness = witness.new })
        inverses.old inverses.new }
{
    let verdict = subgroups::judge(
        bytes,
        ends,
        target,
        Factors(n),
        first,
        second,
        witness,
        inverses,
    );
    showing::lists::call(output, bytes, ends, target, n)?;
    showing::verdict(output, verdict)?;
    showing::lent::table(output, first)?;
    showing::lent::table(output, second)?;
    showing::lent::witness(output, witness)?;
    showing::lent::letters(output, inverses)?;
    writeln!(output)
}

// Lends two tables of so many entries, full of 65,535, a witness of so many bytes, full of 255, and an inverse slice of so many dots.
fn lending<const ENTRIES: usize, const BYTES: usize, const DOTS: usize>(
    output: &mut impl Write,
    bytes: &[u8],
    ends: &[u16],
    target: &[u8],
    n: u16,
) -> io::Result<()>
    requires entries { ENTRIES < 2 ^ 32 }
    requires witness { BYTES < 2 ^ 32 }
    requires inverses { DOTS < 2 ^ 32 }
{
    let mut first = [65535u16; ENTRIES];
    let mut second = [65535u16; ENTRIES];
    let mut witness = [255u8; BYTES];
    let mut inverses = [46u8; DOTS];
    judge(
        output,
        bytes,
        ends,
        target,
        n,
        &mut first,
        &mut second,
        &mut witness,
        &mut inverses,
    )
}

fn small(
    output: &mut impl Write,
    bytes: &[u8],
    ends: &[u16],
    target: &[u8],
    n: u16,
) -> io::Result<()> {
    lending::<TABLE, WITNESS, INVERSES>(output, bytes, ends, target, n)
}

fn without_list(output: &mut impl Write, target: &[u8], n: u16) -> io::Result<()> {
    let ends = [0u16; 0];
    small(output, b"", &ends, target, n)
}

// One generator, whose inverse makes the target at once or is the generator itself; the lists and the target of P10 and P11.
fn worked_values(output: &mut impl Write) -> io::Result<()> {
    let s = [1u16];
    small(output, b"S", &s, b"SS", 1000)?;
    let sr = [2u16];
    small(output, b"SR", &sr, b"RSS", 1000)?;
    let r = [1u16];
    small(output, b"R", &r, b"R", 1000)?;
    let two = [2u16, 3];
    small(output, b"RSS", &two, b"R", 2)?;
    small(output, b"RSS", &two, b"R", 1)?;
    let three = [4u16, 5, 9];
    small(output, b"RSRSSSRSS", &three, b"R", 3)
}

// No generators or no factors, and generators that are empty or reduce to nothing.
fn empty_words(output: &mut impl Write) -> io::Result<()> {
    without_list(output, b"", 0)?;
    without_list(output, b"R", 1000)?;
    let empty = [0u16];
    small(output, b"", &empty, b"", 1000)?;
    small(output, b"", &empty, b"R", 1000)?;
    let vanishing_before_s = [5u16, 9];
    small(output, b"RSSSRSSSS", &vanishing_before_s, b"SSSS", 1000)?;
    small(output, b"RSSSRSSSS", &vanishing_before_s, b"SS", 1000)
}

// Relations, products of the identity: a generator that vanishes; R twice; S and SS; P11's list with R behind it, and SR, each with a generator and its
// inverse. An empty list has none.
fn relations(output: &mut impl Write) -> io::Result<()> {
    let three = [3u16];
    small(output, b"SSS", &three, b"", 5)?;
    let r = [1u16];
    small(output, b"R", &r, b"", 2)?;
    small(output, b"R", &r, b"", 1)?;
    let s_before_ss = [1u16, 3];
    small(output, b"SSS", &s_before_ss, b"", 1000)?;
    let eleven_and_r = [4u16, 5, 9, 10];
    small(output, b"RSRSSSRSSR", &eleven_and_r, b"", 4)?;
    let sr = [2u16];
    small(output, b"SR", &sr, b"", 1000)?;
    small(output, b"SR", &sr, b"", 1)?;
    without_list(output, b"", 1000)
}

// A generator of 80 letters, whose inverse has 120. No two of their suffixes are the same, so there are as many states as q is, and the tables are used to
// their last entries.
fn whole_square(output: &mut impl Write) -> io::Result<()> {
    let ends = [80u16];
    lending::<SQUARE, WITNESS, INVERSES>(
        output,
        b"RSRSRSRSRSRSRSRSRSRSRSRSRSRSRSRSRSRSRSRSRSRSRSRSRSRSRSRSRSRSRSRSRSRSRSRSRSRSRSRS",
        &ends,
        b"",
        2,
    )
}

// Several least series: the first is written, and a given number stands before an inverse's. SS is a generator or the inverse of S; R is its own inverse.
fn firsts(output: &mut impl Write) -> io::Result<()> {
    let s_before_ss = [1u16, 3];
    small(output, b"SSS", &s_before_ss, b"SS", 1000)?;
    let ss_before_s = [2u16, 3];
    small(output, b"SSS", &ss_before_s, b"S", 1000)?;
    let sr_before_r = [2u16, 3];
    small(output, b"SRR", &sr_before_r, b"S", 1000)?;
    let s_before_r = [1u16, 2];
    small(output, b"SR", &s_before_r, b"RSSR", 1000)?;
    small(output, b"SR", &s_before_r, b"SSRSRSS", 1000)
}

// Powers of T, up and down: the count is the bound, or above it; R is none of them.
fn powers_of_t(output: &mut impl Write) -> io::Result<()> {
    let ends = [2u16];
    small(output, b"SR", &ends, b"SRSRSR", 3)?;
    small(output, b"SR", &ends, b"RSSRSS", 2)?;
    small(output, b"SR", &ends, b"RSSRSS", 1)?;
    small(output, b"SR", &ends, b"R", 1000)
}

// S, SR, SR to the 40th, and an empty generator.
fn four(output: &mut impl Write, target: &[u8], n: u16) -> io::Result<()> {
    let ends = [1u16, 3, 83, 83];
    lending::<LARGE_TABLE, WITNESS, INVERSES>(
        output,
        b"SSRSRSRSRSRSRSRSRSRSRSRSRSRSRSRSRSRSRSRSRSRSRSRSRSRSRSRSRSRSRSRSRSRSRSRSRSRSRSRSRSR",
        &ends,
        target,
        n,
    )
}

fn four_generators(output: &mut impl Write) -> io::Result<()> {
    four(output, b"", 0)?;
    four(output, b"S", 0)?;
    four(output, b"", 1000)?;
    four(output, b"S", 1000)?;
    four(output, b"SS", 1000)?;
    four(output, b"SR", 1000)?;
    four(output, b"RSS", 1000)?;
    four(
        output,
        b"SRSRSRSRSRSRSRSRSRSRSRSRSRSRSRSRSRSRSRSRSRSRSRSRSRSRSRSRSRSRSRSRSRSRSRSRSRSRSRSR",
        1000,
    )?;
    four(output, b"R", 2)?;
    four(output, b"R", 1)?;
    four(
        output,
        b"RSSRSSRSSRSSRSSRSSRSSRSSRSSRSSRSSRSSRSSRSSRSSRSSRSSRSSRSSRSSRSSRSSRSSRSSRSSRSSRSSRSSRSSRSSRSSRSSRSSRSSRSSRSSRSSRSSRSSRSS",
        1000,
    )
}

fn factor<'a>(
    output: &mut impl Write,
    bytes: &'a [u8],
    ends: &[u16],
    inverses: &'a [u8],
    number: u8,
) -> io::Result<Part>
    ensures { IfOk result (λ part. part ≡ part_of bytes.now ends.now (length inverses.now) number) }
{
    printing::factor(output, bytes, ends, inverses.len(), number)?;
    let part = subgroups::part_of(bytes, ends, inverses.len(), number);
    printing::part(output, part)?;
    write!(output, " '")?;
    output.write_all(subgroups::letters_of(bytes, ends, inverses, number))?;
    writeln!(output, "'")?;
    Ok(part)
}

// Given and inverse numbers, of which a list of 64 generators has all but four, and a list of two only four.
fn factors<'a>(
    output: &mut impl Write,
    bytes: &'a [u8],
    ends: &[u16],
    inverses: &'a [u8],
) -> io::Result<()> {
    let numbers = [
        0u8, 1, 2, 3, 63, 64, 127, 128, 129, 130, 131, 132, 191, 192, 255,
    ];
    for number in numbers {
        factor(output, bytes, ends, inverses, number)?;
    }
    Ok(())
}

// With just enough entries. As arrays the tables have their lengths by their types, and no proof has to count their entries.
fn just_enough(
    output: &mut impl Write,
    bytes: &[u8],
    ends: &[u16],
    target: &[u8],
    first: &mut [u16; LARGEST_TABLE],
    second: &mut [u16; LARGEST_TABLE],
    witness: &mut [u8],
    inverses: &mut [u8],
) -> io::Result<()>
    ensures { (verdict : Verdict) × JudgesSigned bytes.now ends.now target.now 1 verdict
        (record { first = first.old; second = second.old; witness = witness.old })
        (record { first = first.new; second = second.new; witness = witness.new })
        inverses.old inverses.new }
{
    judge(
        output, bytes, ends, target, 1, first, second, witness, inverses,
    )
}

// The second table has one entry too few.
fn one_entry_less(
    output: &mut impl Write,
    bytes: &[u8],
    ends: &[u16],
    target: &[u8],
    first: &mut [u16; LARGEST_TABLE],
    second: &mut [u16; LARGEST_LESS_ONE],
    witness: &mut [u8],
    inverses: &mut [u8],
) -> io::Result<()>
    ensures { (verdict : Verdict) × JudgesSigned bytes.now ends.now target.now 1 verdict
        (record { first = first.old; second = second.old; witness = witness.old })
        (record { first = first.new; second = second.new; witness = witness.new })
        inverses.old inverses.new }
{
    judge(
        output, bytes, ends, target, 1, first, second, witness, inverses,
    )
}

// No witness for one factor; an inverse slice with one byte too few; a table with one entry too few; and then just enough of all.
fn in_largest_tables(
    output: &mut impl Write,
    bytes: &[u8],
    ends: &[u16],
    target: &[u8],
) -> io::Result<()> {
    let mut first = [65535u16; LARGEST_TABLE];
    let mut second = [65535u16; LARGEST_TABLE];
    let mut less = [65535u16; LARGEST_LESS_ONE];
    let mut none = [255u8; 0];
    let mut one = [255u8; 1];
    let mut inverses = [46u8; INVERSES];
    let mut short = [46u8; SHORT_INVERSES];
    just_enough(
        output,
        bytes,
        ends,
        target,
        &mut first,
        &mut second,
        &mut none,
        &mut inverses,
    )?;
    just_enough(
        output,
        bytes,
        ends,
        target,
        &mut first,
        &mut second,
        &mut one,
        &mut short,
    )?;
    one_entry_less(
        output,
        bytes,
        ends,
        target,
        &mut first,
        &mut less,
        &mut one,
        &mut inverses,
    )?;
    just_enough(
        output,
        bytes,
        ends,
        target,
        &mut first,
        &mut second,
        &mut one,
        &mut inverses,
    )?;
    factors(output, bytes, ends, &inverses)
}

// The ends of 64 generators of 5 letters each.
const FIVES: [u16; GENERATORS] = [
    5, 10, 15, 20, 25, 30, 35, 40, 45, 50, 55, 60, 65, 70, 75, 80, 85, 90, 95, 100, 105, 110, 115,
    120, 125, 130, 135, 140, 145, 150, 155, 160, 165, 170, 175, 180, 185, 190, 195, 200, 205, 210,
    215, 220, 225, 230, 235, 240, 245, 250, 255, 260, 265, 270, 275, 280, 285, 290, 295, 300, 305,
    310, 315, 320,
];

// The largest m: 64 times SRSRS, with 320 letters, and 512 of the inverses.
fn sixty_four(output: &mut impl Write) -> io::Result<()> {
    let ends = FIVES;
    in_largest_tables(
        output,
        b"SRSRSSRSRSSRSRSSRSRSSRSRSSRSRSSRSRSSRSRSSRSRSSRSRSSRSRSSRSRSSRSRSSRSRSSRSRSSRSRSSRSRSSRSRSSRSRSSRSRSSRSRSSRSRSSRSRSSRSRSSRSRSSRSRSSRSRSSRSRSSRSRSSRSRSSRSRSSRSRSSRSRSSRSRSSRSRSSRSRSSRSRSSRSRSSRSRSSRSRSSRSRSSRSRSSRSRSSRSRSSRSRSSRSRSSRSRSSRSRSSRSRSSRSRSSRSRSSRSRSSRSRSSRSRSSRSRSSRSRSSRSRSSRSRSSRSRSSRSRSSRSRSSRSRSSRSRSSRSRS",
        &ends,
        b"SSRSSRSS",
    )
}

// Of all that is lent too little.
fn too_little(
    output: &mut impl Write,
    bytes: &[u8],
    ends: &[u16],
    target: &[u8],
    n: u16,
) -> io::Result<()> {
    lending::<TOO_SHORT, SHORT_WITNESS, SHORT_INVERSES>(output, bytes, ends, target, n)
}

// At first the answer to every question from 7 to 15 is no, and then from call to call one more is yes. Of question 14 the last call answers yes for the
// witness, and no for the inverse slice.
fn lowest_of_many(output: &mut impl Write) -> io::Result<()> {
    let far_too_many = [b'X'; TOO_MANY_LETTERS];
    let too_many_ends = [0u16; TOO_MANY_GENERATORS];
    too_little(output, &far_too_many, &too_many_ends, &far_too_many, 1001)?;
    let wrong_ends = [0u16; GENERATORS];
    too_little(output, &far_too_many, &wrong_ends, &far_too_many, 1001)?;
    let wrong_letters = [b'X'; LETTERS];
    too_little(output, &wrong_letters, &wrong_ends, &far_too_many, 1001)?;
    too_little(output, &wrong_letters, &wrong_ends, &wrong_letters, 1001)?;
    let falling = [2u16, 1, 3];
    too_little(output, b"YYY", &falling, b"X", 1001)?;
    let ends = [4096u16; GENERATORS];
    too_little(output, &wrong_letters, &ends, &wrong_letters, 1001)
}

fn lowest_of_the_rest(output: &mut impl Write) -> io::Result<()> {
    let long = [2u16, 83];
    too_little(
        output,
        b"SRRSSRSSRSSRSSRSSRSSRSSRSSRSSRSSRSSRSSRSSRSSRSSRSSRSSRSSRSSRSSRSSRSSRSSRSSRSSRSSRSS",
        &long,
        b"RSRX",
        1001,
    )?;
    too_little(
        output,
        b"SRRSSRSSRSSRSSRSSRSSRSSRSSRSSRSSRSSRSSRSSRSSRSSRSSRSSRSSRSSRSSRSSRSSRSSRSSRSSRSSRSS",
        &long,
        b"RSSRSSRSSRSSRSSRSSRSSRSSRSSRSSRSSRSSRSSRSSRSSRSSRSSRSSRSSRSSRSSRSSRSSRSSRSSRSSRSS",
        1001,
    )?;
    let ends = [2u16];
    too_little(
        output,
        b"SR",
        &ends,
        b"RSSRSSRSSRSSRSSRSSRSSRSSRSSRSSRSSRSSRSSRSSRSSRSSRSSRSSRSSRSSRSSRSSRSSRSSRSSRSSRSS",
        1001,
    )?;
    too_little(output, b"SR", &ends, b"SRSRSR", 1001)?;
    too_little(output, b"SR", &ends, b"SRSRSR", 1000)?;
    too_little(output, b"SR", &ends, b"SRSRSR", 999)
}

// A verdict, and then the factors.
fn with_factors(
    output: &mut impl Write,
    bytes: &[u8],
    ends: &[u16],
    target: &[u8],
    n: u16,
) -> io::Result<()> {
    let mut first = [65535u16; MIDDLE_TABLE];
    let mut second = [65535u16; MIDDLE_TABLE];
    let mut witness = [255u8; WITNESS];
    let mut inverses = [46u8; INVERSES];
    judge(
        output,
        bytes,
        ends,
        target,
        n,
        &mut first,
        &mut second,
        &mut witness,
        &mut inverses,
    )?;
    factors(output, bytes, ends, &inverses)
}

// The factors of S, SR, SR to the 40th and an empty generator; some by a slice that was overwritten, and by one that is too short.
fn factors_of_four(output: &mut impl Write) -> io::Result<()> {
    let bytes =
        b"SSRSRSRSRSRSRSRSRSRSRSRSRSRSRSRSRSRSRSRSRSRSRSRSRSRSRSRSRSRSRSRSRSRSRSRSRSRSRSRSRSR";
    let ends = [1u16, 3, 83, 83];
    with_factors(output, bytes, &ends, b"SRSR", 2)?;
    let overwritten = [46u8; INVERSES];
    factor(output, bytes, &ends, &overwritten, 2)?;
    factor(output, bytes, &ends, &overwritten, 129)?;
    let short = [46u8; SHORT_INVERSES];
    factor(output, bytes, &ends, &short, 1)?;
    factor(output, bytes, &ends, &short, 129)?;
    Ok(())
}

// Generators that are not reduced are shown as they are given, their inverses reduced.
fn factors_of_unreduced(output: &mut impl Write) -> io::Result<()> {
    let ends = [5u16, 9];
    with_factors(output, b"RSSSRSSSS", &ends, b"", 0)
}

// Lists that are refused by questions 7 to 11 have no factor, nor has the empty list.
fn factors_of_refused(output: &mut impl Write) -> io::Result<()> {
    let inverses = [46u8; INVERSES];
    let too_many_ends = [1u16; TOO_MANY_GENERATORS];
    factor(output, b"R", &too_many_ends, &inverses, 0)?;
    let too_many = [b'R'; TOO_MANY_LETTERS];
    let too_far = [4097u16];
    factor(output, &too_many, &too_far, &inverses, 0)?;
    let falling = [2u16, 1, 3];
    factor(output, b"RSS", &falling, &inverses, 0)?;
    let two = [2u16, 3];
    factor(output, b"RSs", &two, &inverses, 0)?;
    let long = [2u16, 83];
    factor(
        output,
        b"SRRSSRSSRSSRSSRSSRSSRSSRSSRSSRSSRSSRSSRSSRSSRSSRSSRSSRSSRSSRSSRSSRSSRSSRSSRSSRSSRSS",
        &long,
        &inverses,
        128,
    )?;
    let none = [0u16; 0];
    factor(output, b"", &none, &inverses, 0)?;
    factor(output, b"", &none, &inverses, 128)?;
    Ok(())
}

fn main(rt: HostRuntime) -> io::Result<()> {
    let output = &mut rt.stdout();
    worked_values(output)?;
    empty_words(output)?;
    relations(output)?;
    whole_square(output)?;
    firsts(output)?;
    powers_of_t(output)?;
    four_generators(output)?;
    sixty_four(output)?;
    lowest_of_many(output)?;
    lowest_of_the_rest(output)?;
    factors_of_four(output)?;
    factors_of_unreduced(output)?;
    factors_of_refused(output)
}
