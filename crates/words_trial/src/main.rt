// Worked values and edges of the calls on words, one line each: the call, the answer, and the first bytes of the lent slice, which
// was full of dots. What it must print stands in `stdout`.
#![tactic(auto)]

ghost use Rattle.std.specs.Prelude.{◌≡◌, ◌+◌, ◌*◌, ◌^◌, ◌<◌, length};
ghost use Rattle.words.specs.Word.{nf, inverse};
ghost use Rattle.words.specs.Bytes.{word as word_of, bytes};
ghost use Rattle.refusals.specs.Questions.{of_word};
ghost use Rattle.words.specs.Calls.{written};
ghost use Rattle.words_trial.specs.Period.{byte_in, next_column, with_s};

use std::io;
use std::io::Write;
use words::{Account, Letters, Refusal};

fn print_call(output: &mut impl Write, call: &[u8], word: &[u8]) -> io::Result<()> {
    output.write_all(call)?;
    write!(output, " '")?;
    showing::word(output, word)?;
    write!(output, "': ")
}

fn print_length(output: &mut impl Write, letters: Letters) -> io::Result<()> {
    write!(output, "length")?;
    showing::number(output, letters.0)
}

fn print_slice(output: &mut impl Write, out: &[u8]) -> io::Result<()> {
    write!(output, ", '")?;
    showing::word(output, out)?;
    writeln!(output, "'")
}

fn print_reduction(output: &mut impl Write, answer: Result<Account, Refusal>) -> io::Result<()> {
    match answer {
        Ok(account) => {
            print_length(output, account.kept)?;
            write!(output, ", pairs")?;
            showing::number(output, account.pairs)?;
            write!(output, ", triples")?;
            showing::number(output, account.triples)
        }
        Err(refusal) => write!(output, "{refusal}"),
    }
}

fn print_written(output: &mut impl Write, answer: Result<Letters, Refusal>) -> io::Result<()> {
    match answer {
        Ok(letters) => print_length(output, letters),
        Err(refusal) => write!(output, "{refusal}"),
    }
}

fn reduce(output: &mut impl Write, word: &[u8], out: &mut [u8]) -> io::Result<()>
    ensures { out.new ≡ written (of_word word.now (1 * length word.now) (length out.old)) (bytes (nf (word_of word.now))) out.old }
{
    let answer = words::reduce(word, out);
    print_call(output, b"reduce", word)?;
    print_reduction(output, answer)?;
    print_slice(output, out)
}

fn invert(output: &mut impl Write, word: &[u8], out: &mut [u8]) -> io::Result<()>
    ensures { out.new ≡ written (of_word word.now (2 * length word.now) (length out.old)) (bytes (nf (inverse (word_of word.now)))) out.old }
{
    let answer = words::invert(word, out);
    print_call(output, b"invert", word)?;
    print_written(output, answer)?;
    print_slice(output, out)
}

fn is_normal(output: &mut impl Write, word: &[u8]) -> io::Result<()> {
    print_call(output, b"is_normal", word)?;
    match words::is_normal(word) {
        Ok(true) => write!(output, "yes")?,
        Ok(false) => write!(output, "no")?,
        Err(refusal) => write!(output, "{refusal}")?,
    }
    writeln!(output)
}

// Reduces and inverts a word into slices of twelve dots.
fn short(output: &mut impl Write, word: &[u8]) -> io::Result<()> {
    let mut reduced = [46u8; 12];
    reduce(output, word, &mut reduced)?;
    let mut inverted = [46u8; 12];
    invert(output, word, &mut inverted)?;
    is_normal(output, word)
}

// The same into slices that are just long enough for a word of as many letters as question 8 lets pass.
fn long(output: &mut impl Write, word: &[u8]) -> io::Result<()> {
    let mut reduced = [46u8; limits::WORD_LETTERS];
    reduce(output, word, &mut reduced)?;
    let mut inverted = [46u8; limits::INVERSE_ROOM];
    invert(output, word, &mut inverted)?;
    is_normal(output, word)
}

// What stands in a column, where b stood: S, unless the column is the first.
fn byte_in(b: u8, column: usize) -> u8
    ensures { result ≡ byte_in column b }
{
    if column == 0 {
        return b;
    }
    b'S'
}

// The column after a column, of as many as the period has places.
fn next_column(column: usize, period: usize) -> usize
    requires { column + 1 < 2 ^ 64 }
    ensures { result ≡ next_column period column }
{
    let next = column + 1;
    if next < period {
        return next;
    }
    0
}

// Puts S at every place that is no multiple of the period.
fn put_s(word: &mut [u8], period: usize)
    ensures { word.new ≡ with_s period 0 word.old }
{
    let mut i = 0;
    let mut column = 0;
    while i < word.len() {
        word[i] = byte_in(word[i], column);
        column = next_column(column, period);
        i += 1;
    }
}

fn longest_words(output: &mut impl Write) -> io::Result<()> {
    let all_r = [b'R'; limits::WORD_LETTERS];
    long(output, &all_r)?;
    let all_s = [b'S'; limits::WORD_LETTERS];
    long(output, &all_s)?;
    let mut alternating = [b'R'; limits::WORD_LETTERS];
    put_s(&mut alternating, 2);
    long(output, &alternating)?;
    let mut shrinking = [b'R'; limits::WORD_LETTERS];
    put_s(&mut shrinking, 3);
    long(output, &shrinking)?;
    let mut vanishing = [b'R'; limits::WORD_LETTERS];
    put_s(&mut vanishing, 4);
    long(output, &vanishing)?;
    let too_long = [b'R'; limits::WORD_LETTERS + 1];
    long(output, &too_long)
}

fn refused_letters(output: &mut impl Write) -> io::Result<()> {
    short(output, b"TRS")?;
    short(output, b"RTS")?;
    short(output, b"RST")?;
    short(output, b"RS?T")?;
    let mut bad_last = [b'R'; limits::WORD_LETTERS];
    bad_last[limits::WORD_LETTERS - 1] = 88;
    long(output, &bad_last)?;
    let mut bad_and_too_long = [b'R'; limits::WORD_LETTERS + 1];
    bad_and_too_long[0] = 88;
    long(output, &bad_and_too_long)
}

fn room(output: &mut impl Write) -> io::Result<()> {
    let mut just = [46u8; 4];
    reduce(output, b"RRSS", &mut just)?;
    let mut one_short = [46u8; 3];
    reduce(output, b"RRSS", &mut one_short)?;
    let mut twice = [46u8; 4];
    invert(output, b"SR", &mut twice)?;
    let mut twice_less_one = [46u8; 3];
    invert(output, b"SR", &mut twice_less_one)?;
    let mut none = [46u8; 0];
    reduce(output, b"", &mut none)?;
    reduce(output, b"X", &mut none)
}

fn main(rt: HostRuntime) -> io::Result<()> {
    let output = &mut rt.stdout();
    short(output, b"")?;
    short(output, b"R")?;
    short(output, b"S")?;
    short(output, b"RR")?;
    short(output, b"SSS")?;
    short(output, b"SSSS")?;
    short(output, b"RSSSR")?;
    short(output, b"SRRSS")?;
    short(output, b"SR")?;
    short(output, b"SSR")?;
    short(output, b"RSSRS")?;
    longest_words(output)?;
    refused_letters(output)?;
    room(output)
}
