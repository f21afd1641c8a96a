// From a list and a target that have passed questions 7 to 10 to the answer: questions 11 and 12 are put, and then the images of the generators and of the
// target decide. They are taken of the words as they are given: equal words have equal images.
ghost use Rattle.std.specs.Prelude.{◌≡◌, ◌<◌, length};
ghost use Rattle.words.specs.Word.{Word, nf};
ghost use Rattle.words.specs.Bytes.{word};
ghost use Rattle.refusals.specs.Questions.{passed, question12};
ghost use Rattle.products.specs.Product.{generators};
ghost use Rattle.residues.specs.Residues.{image};
ghost use Rattle.lists.specs.Questions.{of_list};
ghost use Rattle.lists.specs.Reducing.{Checked};
ghost use Rattle.quick.specs.Questions.{of_forms};
ghost use Rattle.quick.specs.Calls.{QuickRight, AnsweredBy};

use crate::Quick;
use crate::closing::{Marks, Rows, take_in};
use crate::table::image_of;
use limits::{GENERATORS, LIST_ROOM, WORD_LETTERS};
use words::Refusal;

// The answer for a list and the image of a target. The generators' images are taken in one after the other, until the target's is a product of them.
fn answer_images(bytes: &[u8], ends: &[u16], target: u8) -> Quick
    requires checked { Checked bytes.now ends.now }
    requires target_bound { target < 168 }
    ensures { (w : Word) → target ≡ image w → QuickRight (generators bytes.now ends.now) w result }
{
    let mut rows = Rows::new();
    let mut marks = Marks::new();
    let mut from = 0;
    for end in ends {
        if marks.has(target) {
            return Quick::Open;
        }
        let end = usize::from(*end);
        take_in(image_of(&bytes[from..end]), target, &mut rows, &mut marks);
        from = end;
    }
    if marks.has(target) {
        Quick::Open
    } else {
        Quick::No
    }
}

// The answer for a list and a target of which only question 12 is left.
fn answer_short(bytes: &[u8], ends: &[u16], target: &[u8]) -> Result<Quick, Refusal>
    requires { of_list bytes.now ends.now target.now ≡ passed }
    ensures { AnsweredBy (question12 (length (nf (word target.now)))) (generators bytes.now ends.now) (word target.now) result }
{
    let account = words::reduce(target, &mut [0; WORD_LETTERS])?;
    sizes::of_form(account.kept)?;
    Ok(answer_images(bytes, ends, image_of(target)))
}

// The answer for a list and a target that have passed questions 7 to 10. The list is reduced for question 11.
pub(crate) fn answer_checked(bytes: &[u8], ends: &[u16], target: &[u8]) -> Result<Quick, Refusal>
    requires { of_list bytes.now ends.now target.now ≡ passed }
    ensures { AnsweredBy (of_forms (generators bytes.now ends.now) (word target.now)) (generators bytes.now ends.now)
        (word target.now) result }
{
    lists::reduce_list(bytes, ends, &mut [0; LIST_ROOM], &mut [0; GENERATORS])?;
    answer_short(bytes, ends, target)
}
