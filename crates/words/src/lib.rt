// Words in R and S, where RR and SSS vanish and no other rule holds: reduction to the normal form, inversion, and a test of
// normality. Every call takes any slices whatever: it answers, or refuses by document 01's questions and changes nothing.
#![tactic(auto)]

mod arrival;
mod normality;

ghost use Rattle.std.specs.Prelude.{◌≡◌, ◌*◌, ◌≤◌, length, take};
ghost use Rattle.limits.specs.Limits.{most_letters, most_of_inverse};
ghost use Rattle.words.specs.Word.{nf, inverse};
ghost use Rattle.words.specs.Bytes.{word as word_of, bytes};
ghost use Rattle.slices.specs.Slices.{overwritten};
ghost use Rattle.words.specs.Account.{Accounts};
ghost use Rattle.words.specs.Calls.{Reduces, Writes, Tests};

// Callers of words name a refusal by this crate too.
pub use refusals::Refusal;

// A length in letters. It is never added to a length in factors.
#[derive(Clone, Copy, Debug, PartialEq, Eq, PartialOrd, Ord)]
pub struct Letters(pub u16);

// A length in factors.
#[derive(Clone, Copy, Debug, PartialEq, Eq, PartialOrd, Ord)]
pub struct Factors(pub u16);

// What became of a word's letters in reduction: how many were kept, and how many pairs RR and triples SSS went. Pairs and triples are counts of their own,
// and are added neither to letters nor to factors.
#[derive(Clone, Copy, Debug, PartialEq, Eq)]
pub struct Account {
    pub kept: Letters,
    pub pairs: u16,
    pub triples: u16,
}

// What a word ends in, as a letter that arrives meets it: nothing, R, S or SS.
#[derive(Clone, Copy, Debug, PartialEq, Eq)]
pub enum Ending {
    Nothing,
    R,
    S,
    SS,
}

// Writes the first `len` letters of a stack to the front of `out`.
fn write_out(stack: &[u8], len: usize, out: &mut [u8]) -> Letters
    requires len_in_bounds { len ≤ length stack.now }
    requires len_in_bounds_2 { len ≤ length out.old }
    requires len_le_most_of_inverse { len ≤ most_of_inverse }
    ensures result_value { result.0 ≡ len }
    ensures out_after { out.new ≡ overwritten (take len stack.now) out.old }
{
    slices::copying::copy_at(&stack[..len], out, 0);
    Letters(len as u16)
}

// The letters that a short stack holds: as many as the inverse of a generator that question 11 lets pass may arrive with. Most words are short, and a long
// stack's zeros cost more than their reduction or inversion.
const FEW: usize = 2 * (limits::GENERATOR_LETTERS as usize);

// Writes the normal form of `word` to the front of `out`, by a stack that is lent for its letters.
fn reduce_on(stack: &mut [u8], word: &[u8], out: &mut [u8]) -> Account
    requires word_in_bounds { length word.now ≤ length stack.old }
    requires word_in_bounds_2 { length word.now ≤ length out.old }
    requires word_len_bound { length word.now ≤ most_letters }
    ensures kept_value { result.kept.0 ≡ length (nf (word_of word.now)) }
    ensures accounts { Accounts (word_of word.now) (nf (word_of word.now)) result.pairs result.triples }
    ensures out_after { out.new ≡ overwritten (bytes (nf (word_of word.now))) out.old }
{
    let top = arrival::arrive_all(stack, word);
    let pairs = top.pairs as u16;
    let triples = top.triples as u16;
    Account {
        kept: write_out(stack, top.len, out),
        pairs,
        triples,
    }
}

// Writes the normal form of the inverse of `word` to the front of `out`, by a stack that is lent for its letters. Not one
// function with `reduce_on`: the letters come by another loop, and what went is not told.
fn invert_on(stack: &mut [u8], word: &[u8], out: &mut [u8]) -> Letters
    requires word_in_bounds { 2 * length word.now ≤ length stack.old }
    requires word_in_bounds_2 { 2 * length word.now ≤ length out.old }
    requires word_len_bound { length word.now ≤ most_letters }
    ensures result_value { result.0 ≡ length (nf (inverse (word_of word.now))) }
    ensures out_after { out.new ≡ overwritten (bytes (nf (inverse (word_of word.now)))) out.old }
{
    let top = arrival::arrive_inverse(stack, word);
    write_out(stack, top.len, out)
}

// Writes the normal form of `word` to the front of `out`, and tells how many pairs and triples went.
pub fn reduce(word: &[u8], out: &mut [u8]) -> Result<Account, Refusal>
    ensures { Reduces word.now out.old result out.new }
{
    refusals::of_word(word, word.len(), out.len())?;
    if word.len() <= FEW {
        return Ok(reduce_on(&mut [0; FEW], word, out));
    }
    Ok(reduce_on(&mut [0; limits::WORD_LETTERS], word, out))
}

// Writes the normal form of the inverse of `word` to the front of `out`, and tells its length.
pub fn invert(word: &[u8], out: &mut [u8]) -> Result<Letters, Refusal>
    ensures { Writes (λ w. nf (inverse w)) 2 word.now out.old result out.new }
{
    refusals::of_word(word, 2 * word.len(), out.len())?;
    if 2 * word.len() <= FEW {
        return Ok(invert_on(&mut [0; FEW], word, out));
    }
    Ok(invert_on(&mut [0; limits::INVERSE_ROOM], word, out))
}

// Says whether `word` is in normal form. Questions 8 and 10 come first, so the test inside is at most as many calls deep as question 8
// lets letters pass.
pub fn is_normal(word: &[u8]) -> Result<bool, Refusal>
    ensures { Tests word.now result }
{
    refusals::of_letters(word)?;
    Ok(normality::normal(word))
}
