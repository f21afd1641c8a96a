// The card reader keeps the card and how many bytes it has used.
ghost use Rattle.std.specs.Prelude.{◌≡◌, drop};
ghost use Rattle.fields.specs.Field.{number_field};
ghost use Rattle.fields.specs.Answers.{whole_of};

#[derive(Clone, Copy)]
pub struct Reader<'a> {
    pub card: &'a [u8],
    pub used: usize,
}

// The byte that comes next.
pub fn next_byte(r: Reader) -> Option<u8>
    ensures { result ≡ whole_of (number_field 1 (drop r.entry.used r.entry.card.now)) }
{
    r.card.get(r.used).copied()
}

// The 16-bit number that comes next.
pub fn next_short(r: Reader) -> Option<u16>
    ensures { result ≡ whole_of (number_field 2 (drop r.entry.used r.entry.card.now)) }
{
    match r.card.get(r.used..)? {
        [low, high, ..] => Some(u16::from_le_bytes([*low, *high])),
        _ => None,
    }
}

// The same with plain parameters: a reader that has used so many bytes is made, and asked.
pub fn byte_after(card: &[u8], used: usize) -> Option<u8>
    ensures { result ≡ whole_of (number_field 1 (drop used card.now)) }
{
    next_byte(Reader { card, used })
}

pub fn short_after(card: &[u8], used: usize) -> Option<u16>
    ensures { result ≡ whole_of (number_field 2 (drop used card.now)) }
{
    next_short(Reader { card, used })
}
