// Worked values and edges of the quick answer, one call to a line: the list's letters and ends, and the target; the answer. What it must print stands in
// `stdout`.
#![tactic(auto)]

ghost use Rattle.std.specs.Prelude.{IfOk};
ghost use Rattle.quick.specs.Calls.{Answers};

use quick::Quick;
use std::io;
use std::io::Write;
use words::Refusal;

fn call(output: &mut impl Write, bytes: &[u8], ends: &[u16], target: &[u8]) -> io::Result<()> {
    showing::lists::list(output, bytes, ends)?;
    write!(output, ", '")?;
    showing::word(output, target)?;
    write!(output, "': ")
}

fn answer(output: &mut impl Write, answer: Result<Quick, Refusal>) -> io::Result<()> {
    match answer {
        Ok(Quick::No) => write!(output, "no"),
        Ok(Quick::Open) => write!(output, "open"),
        Err(refusal) => write!(output, "{refusal}"),
    }
}

// What a call gave. Its callers print and go on; the contract speaks of it.
#[derive(Clone, Copy)]
struct Given(Result<Quick, Refusal>);

// Asks, prints what was asked and answered, and answers what was given.
fn ask(output: &mut impl Write, bytes: &[u8], ends: &[u16], target: &[u8]) -> io::Result<Given>
    ensures { IfOk result (λ given. Answers bytes.now ends.now target.now given.0) }
{
    call(output, bytes, ends, target)?;
    let given = quick::quick_no(bytes, ends, target);
    answer(output, given)?;
    writeln!(output)?;
    Ok(Given(given))
}

fn without_list(output: &mut impl Write, target: &[u8]) -> io::Result<()> {
    let ends = [0u16; 0];
    ask(output, b"", &ends, target)?;
    Ok(())
}

// 02's list SR: no power of T is R, even modulo 7, but its inverse RSS is one there, the sixth.
fn powers_of_t(output: &mut impl Write) -> io::Result<()> {
    let ends = [2u16];
    ask(output, b"SR", &ends, b"R")?;
    ask(output, b"SR", &ends, b"RSS")?;
    ask(output, b"SR", &ends, b"SRSRSR")?;
    ask(output, b"SR", &ends, b"")?;
    ask(output, b"SR", &ends, b"SSR")?;
    Ok(())
}

// "so an empty list always gets it"
fn empty_lists(output: &mut impl Write) -> io::Result<()> {
    without_list(output, b"")?;
    without_list(output, b"R")?;
    without_list(output, b"SRRSS")
}

// Generators that are empty, vanish or repeat; the lists of P10 to P12.
fn worked_values(output: &mut impl Write) -> io::Result<()> {
    let empty = [0u16];
    ask(output, b"", &empty, b"")?;
    ask(output, b"", &empty, b"R")?;
    let vanishing = [3u16];
    ask(output, b"SSS", &vanishing, b"")?;
    ask(output, b"SSS", &vanishing, b"S")?;
    let same = [1u16, 2, 3];
    ask(output, b"RRR", &same, b"R")?;
    ask(output, b"RRR", &same, b"S")?;
    let two = [2u16, 3];
    ask(output, b"RSS", &two, b"R")?;
    let three = [4u16, 5, 9];
    ask(output, b"RSRSSSRSS", &three, b"R")?;
    Ok(())
}

// Only S: its powers are the unit, S and SS. With R behind it every word is a product.
fn both_letters(output: &mut impl Write) -> io::Result<()> {
    let s = [1u16];
    ask(output, b"S", &s, b"SS")?;
    ask(output, b"S", &s, b"R")?;
    let both = [1u16, 2];
    ask(output, b"SR", &both, b"R")?;
    ask(output, b"SR", &both, b"RSRSSRSRSRSSRSSR")?;
    Ok(())
}

// Generators of the matrices (a b; c d) with 7 dividing c: the products of their images are the 21 with c = 0. T, SRSR and (4 3; -7 -5) are such, R, SSR and
// its sixth power are not, its seventh is.
fn gamma_0_7(output: &mut impl Write) -> io::Result<()> {
    let ends = [2u16, 15, 28];
    let list = b"SRRSRSRSRSSRSSRRSRSSRSRSRSSR";
    ask(output, list, &ends, b"SRSR")?;
    ask(output, list, &ends, b"RSRSSRSRSRSSR")?;
    ask(output, list, &ends, b"RSRSSRSRSRSSRSR")?;
    ask(output, list, &ends, b"R")?;
    ask(output, list, &ends, b"SSR")?;
    ask(output, list, &ends, b"SSRSSRSSRSSRSSRSSR")?;
    ask(output, list, &ends, b"SSRSSRSSRSSRSSRSSRSSR")?;
    ask(output, list, &ends, b"")?;
    Ok(())
}

// Questions 7 to 12, and the largest that pass.
fn refused(output: &mut impl Write) -> io::Result<()> {
    let too_many = [0u16; 65];
    ask(output, b"", &too_many, b"R")?;
    let most = [0u16; 64];
    ask(output, b"", &most, b"R")?;
    let letters = [b'R'; 4097];
    let ends = [4097u16];
    ask(output, &letters, &ends, b"R")?;
    without_list(output, &letters)?;
    let enough = [b'R'; 4096];
    let all = [4096u16];
    ask(output, &enough, &all, &enough)?;
    let falling = [2u16, 1, 3];
    ask(output, b"RSS", &falling, b"R")?;
    let too_early = [1u16, 2];
    ask(output, b"RSS", &too_early, b"R")?;
    let two = [2u16, 3];
    ask(output, b"RSs", &two, b"X")?;
    ask(output, b"RSS", &two, b"RSRX")?;
    let long = [2u16, 83];
    ask(
        output,
        b"SRRSSRSSRSSRSSRSSRSSRSSRSSRSSRSSRSSRSSRSSRSSRSSRSSRSSRSSRSSRSSRSSRSSRSSRSSRSSRSSRSS",
        &long,
        b"R",
    )?;
    ask(
        output,
        b"RSS",
        &two,
        b"RSSRSSRSSRSSRSSRSSRSSRSSRSSRSSRSSRSSRSSRSSRSSRSSRSSRSSRSSRSSRSSRSSRSSRSSRSSRSSRSS",
    )?;
    Ok(())
}

// The largest list: four generators of 80 letters, each with an even number of R's, and a target of 80 with an odd number; modulo 7 it is a product all the same.
fn four_of_80(output: &mut impl Write) -> io::Result<()> {
    let ends = [80u16, 160, 240, 320];
    ask(
        output,
        b"SRSRSRSRSRSRSRSRSRSRSRSRSRSRSRSRSRSRSRSRSRSRSRSRSRSRSRSRSRSRSRSRSRSRSRSRSRSRSRSRRSRSRSRSRSRSRSRSRSRSRSRSRSRSRSRSRSRSRSRSRSRSRSRSRSRSRSRSRSRSRSRSRSRSRSRSRSRSRSSSRSSRSSRSSRSSRSSRSSRSSRSSRSSRSSRSSRSSRSSRSSRSSRSSRSSRSSRSSRSSRSSRSSRSSRSSRSSRSSRSSRSSRSSRSSRSRSRSRSRSRSRSRSRSRSRSRSRSRSRSRSRSRSRSRSRSRSRSRSRSRSRSRSRSRSRSRSRSRSRS",
        &ends,
        b"RSSRSSRSSRSSRSSRSSRSSRSSRSSRSSRSSRSSRSSRSSRSSRSSRSSRSSRSSRSSRSSRSSRSSRSSRSSRSSRS",
    )?;
    Ok(())
}

fn main(rt: HostRuntime) -> io::Result<()> {
    let output = &mut rt.stdout();
    powers_of_t(output)?;
    empty_lists(output)?;
    worked_values(output)?;
    both_letters(output)?;
    gamma_0_7(output)?;
    refused(output)?;
    four_of_80(output)
}
