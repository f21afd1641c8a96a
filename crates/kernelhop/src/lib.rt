// The calls for programs in other languages, which link the static library of this crate. A slice is a pointer and a length there.
#![tactic(auto)]

mod telling;

ghost use Rattle.std.specs.Prelude.{Bool, Result, ◌≡◌, length};
ghost use Rattle.words.specs.Word.{nf, inverse};
ghost use Rattle.words.specs.Calls.{Reduces, Writes, Tests};
ghost use Rattle.words.specs.declared.Account.{Account};
ghost use Rattle.words.specs.declared.Letters.{Letters};
ghost use Rattle.refusals.specs.declared.Refusal.{Refusal};
ghost use Rattle.matrices.specs.Calls.{TurnsWord, TurnsMatrix};
ghost use Rattle.matrices.specs.declared.Matrix.{Matrix};
ghost use Rattle.engine.specs.Calls.{Verdict, Judges};
ghost use Rattle.subgroups.specs.Calls.{JudgesSigned};
ghost use Rattle.subgroups.specs.Parts.{part_of};
ghost use Rattle.reach.specs.Calls.{Reached, Reaches};
ghost use Rattle.quick.specs.Calls.{Answers};
ghost use Rattle.quick.specs.declared.Quick.{Quick};
ghost use Rattle.answers.specs.declared.Answer.{Answer};
ghost use Rattle.cards.specs.Calls.{AnswersCard};
ghost use Rattle.kernelhop.specs.Release.{release};
ghost use Rattle.kernelhop.specs.Outcome.{of_reduction, of_written, of_tested, of_turned, entries_or, of_verdict, of_part, of_reached, of_quick, of_answer};

use matrices::Matrix;
use words::Factors;

// An answer: 0, and the length written, 1 for a normal word and 0 for another, the count of a member, 1 for a target that is reachable, or 0 for a matrix.
// None: 255, and n; not reachable, or the quick no: 255, and 0; open: 254, and 0. A refusal: the question's number, from 1 to 16, and its place.
#[repr(C)]
#[derive(Clone, Copy)]
pub struct Outcome {
    pub number: u8,
    pub value: usize,
}

// An answer of reduction: 0, the length written, and how many pairs RR and triples SSS went. A refusal: the question's number, its place, and 0 for both.
#[repr(C)]
#[derive(Clone, Copy)]
pub struct Reduction {
    pub number: u8,
    pub pairs: u16,
    pub triples: u16,
    pub value: usize,
}

// The letters of a factor: from `start` up to `end` of the given slice where `inverse` is 0, and of the inverse slice where it is 1.
#[repr(C)]
#[derive(Clone, Copy)]
pub struct Part {
    pub inverse: u8,
    pub start: u16,
    pub end: u16,
}

// Which release this library is, as one number (`release` of specs/). It has its one home here, in the promise and in the code: whoever else needs it asks.
#[unsafe(no_mangle)]
pub extern "C" fn kernelhop_version() -> u32
    ensures { result ≡ release 1 7 0 }
{
    10_700
}

// The same as words::reduce.
#[unsafe(no_mangle)]
pub extern "C" fn kernelhop_reduce(word: &[u8], out: &mut [u8]) -> Reduction
    ensures { (w : Result Account Refusal) × Reduces word.now out.old w out.new × (result ≡ of_reduction w) }
{
    telling::reduction(words::reduce(word, out))
}

// The same as words::invert.
#[unsafe(no_mangle)]
pub extern "C" fn kernelhop_invert(word: &[u8], out: &mut [u8]) -> Outcome
    ensures { (w : Result Letters Refusal) × Writes (λ x. nf (inverse x)) 2 word.now out.old w out.new × (result ≡ of_written w) }
{
    telling::written(words::invert(word, out))
}

// The same as words::is_normal.
#[unsafe(no_mangle)]
pub extern "C" fn kernelhop_is_normal(word: &[u8]) -> Outcome
    ensures { (t : Result Bool Refusal) × Tests word.now t × (result ≡ of_tested t) }
{
    telling::tested(words::is_normal(word))
}

// The same as matrices::word_to_matrix: a, b, c and d go into `out`, which a refusal leaves as it was.
#[unsafe(no_mangle)]
pub extern "C" fn kernelhop_word_to_matrix(word: &[u8], out: &mut [i64; 4]) -> Outcome
    ensures { (t : Result Matrix Refusal) × TurnsWord word.now t × (result ≡ of_turned t) × (out.new ≡ entries_or t out.old) }
{
    match matrices::word_to_matrix(word) {
        Err(why) => telling::refusal(why),
        Ok(m) => {
            *out = [m.a, m.b, m.c, m.d];
            Outcome {
                number: 0,
                value: 0,
            }
        }
    }
}

// The same as matrices::matrix_to_word.
#[unsafe(no_mangle)]
pub extern "C" fn kernelhop_matrix_to_word(
    a: i64,
    b: i64,
    c: i64,
    d: i64,
    out: &mut [u8],
) -> Outcome
    ensures { (w : Result Letters Refusal) × TurnsMatrix (record { a = a; b = b; c = c; d = d }) out.old w out.new × (result ≡ of_written w) }
{
    telling::written(matrices::matrix_to_word(Matrix { a, b, c, d }, out))
}

// The same as engine::judge.
#[unsafe(no_mangle)]
pub extern "C" fn kernelhop_judge(
    bytes: &[u8],
    ends: &[u16],
    target: &[u8],
    n: u16,
    first: &mut [u16],
    second: &mut [u16],
    witness: &mut [u8],
) -> Outcome
    ensures { (v : Verdict)
        × Judges bytes.now ends.now target.now n v
        (record { first = first.old; second = second.old; witness = witness.old })
        (record { first = first.new; second = second.new; witness = witness.new })
        × (result ≡ of_verdict (record { 0 = n }) v) }
{
    telling::verdict(
        Factors(n),
        engine::judge(bytes, ends, target, Factors(n), first, second, witness),
    )
}

// The same as subgroups::judge.
#[unsafe(no_mangle)]
pub extern "C" fn kernelhop_judge_subgroup(
    bytes: &[u8],
    ends: &[u16],
    target: &[u8],
    n: u16,
    first: &mut [u16],
    second: &mut [u16],
    witness: &mut [u8],
    inverses: &mut [u8],
) -> Outcome
    ensures { (v : Verdict)
        × JudgesSigned bytes.now ends.now target.now n v
        (record { first = first.old; second = second.old; witness = witness.old })
        (record { first = first.new; second = second.new; witness = witness.new })
        inverses.old inverses.new
        × (result ≡ of_verdict (record { 0 = n }) v) }
{
    telling::verdict(
        Factors(n),
        subgroups::judge(
            bytes,
            ends,
            target,
            Factors(n),
            first,
            second,
            witness,
            inverses,
        ),
    )
}

// The part that subgroups::letters_of shows: no function of C returns a part of a slice.
#[unsafe(no_mangle)]
pub extern "C" fn kernelhop_letters_of(
    bytes: &[u8],
    ends: &[u16],
    inverses: &[u8],
    number: u8,
) -> Part
    ensures { result ≡ of_part (part_of bytes.now ends.now (length inverses.now) number) }
{
    telling::part(subgroups::part_of(bytes, ends, inverses.len(), number))
}

// The same as reach::reachable.
#[unsafe(no_mangle)]
pub extern "C" fn kernelhop_reachable(
    bytes: &[u8],
    ends: &[u16],
    target: &[u8],
    first: &mut [u16],
    second: &mut [u16],
) -> Outcome
    ensures { (v : Reached)
        × Reaches bytes.now ends.now target.now v
        (record { first = first.old; second = second.old })
        (record { first = first.new; second = second.new })
        × (result ≡ of_reached v) }
{
    telling::reached(reach::reachable(bytes, ends, target, first, second))
}

// The same as quick::quick_no.
#[unsafe(no_mangle)]
pub extern "C" fn kernelhop_quick_no(bytes: &[u8], ends: &[u16], target: &[u8]) -> Outcome
    ensures { (q : Result Quick Refusal) × Answers bytes.now ends.now target.now q × (result ≡ of_quick q) }
{
    telling::quick(quick::quick_no(bytes, ends, target))
}

// The same as cards::answer_card.
#[unsafe(no_mangle)]
pub extern "C" fn kernelhop_answer_card(
    card: &[u8],
    first: &mut [u16],
    second: &mut [u16],
    witness: &mut [u8],
) -> Outcome
    ensures { (v : Result Answer Refusal)
        × AnswersCard card.now v
        (record { first = first.old; second = second.old; witness = witness.old })
        (record { first = first.new; second = second.new; witness = witness.new })
        × (result ≡ of_answer v) }
{
    telling::card(cards::answer_card(card, first, second, witness))
}
