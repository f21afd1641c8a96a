// The text of a line, field behind field. A byte for which the slice has no room is counted and not stored, so a line is measured by writing it to a
// slice that is too short. Every place is below 2 ^ 32: the longest line has 65,535 factors.
ghost use Rattle.std.specs.Prelude.{Result, true, ◌≡◌, [], ◌∷◌, ◌++◌, ◌+◌, ◌*◌, ◌%◌, ◌^◌, ◌≤◌, ◌<◌, length};
ghost use Rattle.refusals.specs.Questions.{number as number_of, place as place_of};
ghost use Rattle.answers.specs.Line.{decimal, field, fields_of, member_name, none_name, refused_name, said as said_of, line as line_of};
ghost use Rattle.answers.specs.Calls.{witnessed};
ghost use Rattle.answers.specs.Storing.{Stores};

use crate::Answer;
use words::Refusal;

fn last_digit(n: u64) -> u8
    ensures { result ≡ 48 + n % 10 }
{
    b'0' + (n % 10) as u8
}

// The slice that a text is written to, and the place behind the text.
#[derive(Drop)]
struct Line<'a> {
    out: &'a mut [u8],
    end: usize,
}

impl Line<'_> {
    fn put_byte(&mut self, byte: u8)
        requires { self.old.end < 2 ^ 32 }
        ensures same_slice { self.new.out.ghost_name ≡ self.old.out.ghost_name }
        ensures stores { Stores (byte ∷ []) self.old.end self.old.out.now self.new.end self.new.out.now }
    {
        if self.end < self.out.len() {
            self.out[self.end] = byte;
        }
        self.end += 1;
    }

    fn put(&mut self, text: &[u8])
        requires { self.old.end + length text.now < 2 ^ 32 }
        ensures same_slice { self.new.out.ghost_name ≡ self.old.out.ghost_name }
        ensures stores { Stores text.now self.old.end self.old.out.now self.new.end self.new.out.now }
    {
        for byte in text {
            self.put_byte(*byte);
        }
    }

    // A number, which has at most 20 digits.
    fn put_decimal(&mut self, n: u64)
        requires { self.old.end + 20 < 2 ^ 32 }
        ensures same_slice { self.new.out.ghost_name ≡ self.old.out.ghost_name }
        ensures stores { Stores (decimal n) self.old.end self.old.out.now self.new.end self.new.out.now }
    {
        if 10 <= n {
            self.put_decimal(n / 10);
        }
        self.put_byte(last_digit(n));
    }

    // A space and a number.
    fn put_field(&mut self, n: u64)
        requires { self.old.end + 21 < 2 ^ 32 }
        ensures same_slice { self.new.out.ghost_name ≡ self.old.out.ghost_name }
        ensures stores { Stores (field n) self.old.end self.old.out.now self.new.end self.new.out.now }
        ensures upper_bound { self.new.end ≤ self.old.end + 21 }
    {
        self.put_byte(b' ');
        self.put_decimal(n);
    }

    fn put_fields(&mut self, factors: &[u8])
        requires { self.old.end + 21 * length factors.now < 2 ^ 32 }
        ensures same_slice { self.new.out.ghost_name ≡ self.old.out.ghost_name }
        ensures stores { Stores (fields_of factors.now) self.old.end self.old.out.now self.new.end self.new.out.now }
        ensures upper_bound { self.new.end ≤ self.old.end + 21 * length factors.now }
    {
        for factor in factors {
            self.put_field(*factor as u64);
        }
    }

    // What stands before the byte that ends the line.
    fn put_said(&mut self, answer: Result<Answer, Refusal>, witness: &[u8])
        requires witnessed { witnessed answer witness.now ≡ true }
        requires empty { self.old.end ≡ 0 }
        ensures same_slice { self.new.out.ghost_name ≡ self.old.out.ghost_name }
        ensures stores { Stores (said_of answer witness.now) 0 self.old.out.now self.new.end self.new.out.now }
        ensures upper_bound { self.new.end < 2 ^ 32 }
    {
        match answer {
            Ok(Answer::Member(count)) => {
                self.put(b"member");
                self.put_field(count.0 as u64);
                self.put_fields(&witness[..count.0 as usize]);
            }
            Ok(Answer::None(n)) => {
                self.put(b"none");
                self.put_field(n.0 as u64);
            }
            Err(refusal) => {
                self.put(b"refused");
                self.put_field(refusals::number(refusal) as u64);
                self.put_field(refusals::place(refusal) as u64);
            }
        }
    }

    fn put_line(&mut self, answer: Result<Answer, Refusal>, witness: &[u8])
        requires witnessed { witnessed answer witness.now ≡ true }
        requires empty { self.old.end ≡ 0 }
        ensures same_slice { self.new.out.ghost_name ≡ self.old.out.ghost_name }
        ensures stores { Stores (line_of answer witness.now) 0 self.old.out.now self.new.end self.new.out.now }
    {
        self.put_said(answer, witness);
        self.put_byte(b'\n');
    }
}

// Writes the line, and answers how long it is.
pub(crate) fn write(answer: Result<Answer, Refusal>, witness: &[u8], out: &mut [u8]) -> usize
    requires { witnessed answer witness.now ≡ true }
    ensures { Stores (line_of answer witness.now) 0 out.old result out.new }
{
    let mut line = Line { out, end: 0 };
    line.put_line(answer, witness);
    line.end
}
