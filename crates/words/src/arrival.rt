// Letters that arrive one after the other at a word that is kept reduced. The word so far is a stack: its first `len` bytes, with
// its last letter on top. Two R's that cancel are counted as they go, and so are three S's.
ghost use Rattle.std.specs.Prelude.{◌≡◌, [], ◌∷◌, ◌+◌, ◌*◌, ◌≤◌, ◌<◌, length, set};
ghost use Rattle.words.specs.Word.{arrived, inverse, inverse_letter};
ghost use Rattle.words.specs.Bytes.{letter, word as word_of};
ghost use Rattle.words.specs.Account.{rs};
ghost use Rattle.words.specs.Arrival.{Held, SomeHeld, Arrives, below, ending_of, came};

use crate::Ending;

// The stack's height, the word's ending, and how many pairs RR and triples SSS went so far.
#[derive(Drop)]
pub(crate) struct Top {
    pub(crate) len: usize,
    pub(crate) ending: Ending,
    pub(crate) pairs: usize,
    pub(crate) triples: usize,
}

// The top of a stack at which nothing has arrived.
const EMPTY: Top = Top {
    len: 0,
    ending: Ending::Nothing,
    pairs: 0,
    triples: 0,
};

// The ending of the word below a height.
fn ending_at(stack: &[u8], len: usize) -> Ending
    requires { len ≤ length stack.now }
    ensures { result ≡ ending_of (below stack.now len) }
{
    match &stack[..len] {
        [] => Ending::Nothing,
        [.., b'R'] => Ending::R,
        [_] | [.., b'R', _] => Ending::S,
        _ => Ending::SS,
    }
}

// A letter is pushed, which makes that ending. Nothing goes.
fn push(stack: &mut [u8], top: Top, byte: u8, ending: Ending) -> Top
    requires { top.len < length stack.old }
    ensures len_value { (result.len ≡ top.len + 1) × (result.ending ≡ ending) × (result.pairs ≡ top.pairs) × (result.triples ≡ top.triples) }
    ensures stack_after { stack.new ≡ set stack.old top.len byte }
{
    stack[top.len] = byte;
    Top {
        len: top.len + 1,
        ending,
        pairs: top.pairs,
        triples: top.triples,
    }
}

// The stack is popped down to a height, and then so many pairs and triples went. The ending is read off the stack.
fn pop_to(stack: &[u8], len: usize, pairs: usize, triples: usize) -> Top
    requires { len ≤ length stack.now }
    ensures { (result.len ≡ len) × (result.ending ≡ ending_of (below stack.now len)) × (result.pairs ≡ pairs) × (result.triples ≡ triples) }
{
    Top {
        len,
        ending: ending_at(stack, len),
        pairs,
        triples,
    }
}

// A letter arrives, and meets one of the four endings, by its number: 0 nothing, 1 R, 2 S, 3 SS. An R cancels an R, an S cancels SS, and any other letter is
// pushed. A number has more than four values, so the last arm is `_`: it stands for 3.
pub(crate) fn arrive(stack: &mut [u8], top: Top, byte: u8) -> Top
    requires some_held { SomeHeld stack.old top.len top.ending }
    requires top_in_bounds { came top < length stack.old }
    ensures { Arrives (letter byte ∷ []) stack.old top stack.new result }
{
    let ending = top.ending as u8;
    match byte {
        b'R' => match ending {
            0 => push(stack, top, b'R', Ending::R),
            1 => pop_to(stack, top.len - 1, top.pairs + 1, top.triples),
            2 => push(stack, top, b'R', Ending::R),
            _ => push(stack, top, b'R', Ending::R),
        },
        _ => match ending {
            0 => push(stack, top, b'S', Ending::S),
            1 => push(stack, top, b'S', Ending::S),
            2 => push(stack, top, b'S', Ending::SS),
            _ => pop_to(stack, top.len - 2, top.pairs, top.triples + 1),
        },
    }
}

// The inverse of a letter arrives: R, or SS.
fn arrive_inverse_letter(stack: &mut [u8], top: Top, byte: u8) -> Top
    requires some_held { SomeHeld stack.old top.len top.ending }
    requires top_in_bounds { came top + 1 < length stack.old }
    ensures { Arrives (inverse_letter (letter byte)) stack.old top stack.new result }
{
    if byte == b'R' {
        return arrive(stack, top, b'R');
    }
    let once = arrive(stack, top, b'S');
    arrive(stack, once, b'S')
}

// The letters of `word` arrive at nothing, its first letter first.
pub(crate) fn arrive_all(stack: &mut [u8], word: &[u8]) -> Top
    requires { length word.now ≤ length stack.old }
    ensures held { Held stack.new result.len result.ending (arrived [] (word_of word.now)) }
    ensures result_value { came result ≡ length word.now }
    ensures pairs_value { rs (arrived [] (word_of word.now)) + 2 * result.pairs ≡ rs (word_of word.now) }
{
    let mut top = EMPTY;
    for byte in word {
        top = arrive(stack, top, *byte);
    }
    top
}

// The letters of the inverse of `word` arrive at nothing: its last letter first, and each S as SS.
pub(crate) fn arrive_inverse(stack: &mut [u8], word: &[u8]) -> Top
    requires { 2 * length word.now ≤ length stack.old }
    ensures held { Held stack.new result.len result.ending (arrived [] (inverse (word_of word.now))) }
    ensures len_bound { result.len ≤ 2 * length word.now }
{
    let mut top = EMPTY;
    for byte in word.iter().rev() {
        top = arrive_inverse_letter(stack, top, *byte);
    }
    top
}
