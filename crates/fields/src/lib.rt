// The fields of a query card, one at a time, from a place in a slice of any length. A field that is not whole, wherever the place is, is none.
#![tactic(auto)]

pub mod reader;

ghost use Rattle.std.specs.Prelude.{◌≡◌, drop};
ghost use Rattle.fields.specs.Field.{signed_field, letters_field};
ghost use Rattle.fields.specs.Answers.{whole_of, SpanOf};

// Letters with their length in front: where they start and where they end.
#[derive(Clone, Copy, Debug, PartialEq, Eq)]
pub struct Span {
    pub start: usize,
    pub end: usize,
}

// The letters whose length stands at `at`.
pub fn letters_after(card: &[u8], at: usize) -> Option<Span>
    ensures { SpanOf card.now (letters_field (drop at card.now)) result }
{
    let len = reader::short_after(card, at)? as usize;
    let start = at + 2;
    if card.len() - start < len {
        return None;
    }
    Some(Span {
        start,
        end: start + len,
    })
}

// The signed 64-bit number at `at`.
pub fn signed_after(card: &[u8], at: usize) -> Option<i64>
    ensures { result ≡ whole_of (signed_field (drop at card.now)) }
{
    let bytes = card.get(at..)?.first_chunk::<8>()?;
    Some(i64::from_le_bytes(*bytes))
}
