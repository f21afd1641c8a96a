// The questions about a list's ends, and about the letters of a list and a target together.
ghost use Rattle.std.specs.Prelude.{◌≡◌, ◌++◌, ◌+◌, ◌*◌, ◌≤◌, length};
ghost use Rattle.limits.specs.Limits.{most_letters};
ghost use Rattle.refusals.specs.Questions.{question10};
ghost use Rattle.lists.specs.Questions.{first_fall, last_end, question9};

use words::Refusal;

// The index of the first end that is below the one before it, or the number of ends.
fn first_fall(ends: &[u16]) -> usize
    ensures { result ≡ first_fall 0 ends.now }
{
    let mut from = 0;
    for (i, end) in ends.iter().enumerate() {
        if *end < from {
            return i;
        }
        from = *end;
    }
    ends.len()
}

// The last end, 0 if there is none.
fn last_end(ends: &[u16]) -> usize
    ensures { result ≡ last_end 0 ends.now }
{
    match ends {
        [] => 0,
        [.., end] => usize::from(*end),
    }
}

// Question 9.
pub(crate) fn of_ends(ends: &[u16], bytes: &[u8]) -> Result<(), Refusal>
    ensures { result ≡ question9 ends.now (length bytes.now) }
{
    let fall = first_fall(ends);
    if fall < ends.len() {
        return Err(Refusal::EndsWrong(fall));
    }
    if last_end(ends) != bytes.len() {
        return Err(Refusal::EndsWrong(ends.len()));
    }
    Ok(())
}

// Question 10 of a list's letters, and then a target's.
pub(crate) fn of_all_letters(bytes: &[u8], target: &[u8]) -> Result<(), Refusal>
    requires { length bytes.now + length target.now ≤ 2 * most_letters }
    ensures { result ≡ question10 (bytes.now ++ target.now) }
{
    let first = refusals::first_other(bytes);
    if first < bytes.len() {
        return Err(Refusal::NotALetter(first));
    }
    let second = refusals::first_other(target);
    if second < target.len() {
        return Err(Refusal::NotALetter(first + second));
    }
    Ok(())
}
