// The test of normality, by parts. Document 01: "An R part is followed by an S part or nothing, an S part by an R part or nothing;
// an R part is one R and an S part is S or SS." Its sentence has a function for each kind of part.
ghost use Rattle.words.specs.Bytes.{word as word_of};
ghost use Rattle.refusals.specs.Telling.{Tells};
ghost use Rattle.words.specs.Parts.{FromRPart, FromSPart, Parts};

// Is the word nothing, or parts that follow one another so?
pub(crate) fn normal(word: &[u8]) -> bool
    ensures { Tells result (Parts (word_of word.now)) }
{
    match word {
        [] => true,
        [b'R', ..] => from_r_part(word),
        _ => from_s_part(word),
    }
}

// Is the word nothing, or an R part that is followed by an S part or nothing, and so on?
#[cycle(from_r_part_from_s_part)]
fn from_r_part(word: &[u8]) -> bool
    ensures { Tells result (FromRPart (word_of word.now)) }
{
    match word {
        [] => true,
        [b'R', rest @ ..] => from_s_part(rest),
        _ => false,
    }
}

// Is the word nothing, or an S part that is followed by an R part or nothing, and so on?
#[cycle(from_r_part_from_s_part)]
fn from_s_part(word: &[u8]) -> bool
    ensures { Tells result (FromSPart (word_of word.now)) }
{
    match word {
        [] => true,
        [b'R', ..] => false,
        [_] => true,
        [_, b'R', ..] => from_r_part(&word[1..]),
        [_, _, rest @ ..] => from_r_part(rest),
    }
}
