// The verdict on a list and a target that are ready: the sizes are asked for, and the first of the least series is searched for.
ghost use Rattle.std.specs.Prelude.{List, ◌≡◌, ℕ, ◌≤◌, length};
ghost use Rattle.limits.specs.Limits.{most_letters};
ghost use Rattle.words.specs.Word.{Word};
ghost use Rattle.words.specs.Bytes.{word};
ghost use Rattle.products.specs.Product.{plain};
ghost use Rattle.sizes.specs.Questions.{side, of_sizes};
ghost use Rattle.queries.specs.Ready.{ReadyTree};
ghost use Rattle.refusals.specs.Questions.{passed};
ghost use Rattle.engine.specs.Judging.{of_found, Settled, SettlesForm, JudgesForm};

use trees::{SuffixTree, Unfit};
use words::{Factors, Letters, Refusal};

// The verdict that a search comes to. What is searched here fits; were it not so, a refusal would lose nothing.
fn verdict_of(found: Result<Option<Factors>, Unfit>) -> Result<Option<Factors>, Refusal>
    ensures { result ≡ of_found found }
{
    match found {
        Ok(series) => Ok(series),
        Err(_) => Err(Refusal::TableTooShort),
    }
}

// The verdict on a reduced target: what the search finds.
fn decide(
    form: &[u8],
    tree: &SuffixTree,
    n: Factors,
    first: &mut [u16],
    second: &mut [u16],
    witness: &mut [u8],
) -> Result<Option<Factors>, Refusal>
    ensures { (gens : List Word) (m : ℕ) → ReadyTree gens m tree.now form.now
        → of_sizes m (length form.now) n.0 (length first.old) (length second.old) (length witness.old) ≡ passed
        → Settled (side m (length form.now)) (plain gens) (word form.now) n.0 result
        (record { first = first.old; second = second.old; witness = witness.old })
        (record { first = first.new; second = second.new; witness = witness.new }) }
{
    verdict_of(search::least(form, tree, n, first, second, witness))
}

// The verdict on what is ready, once the sizes have passed questions 12 to 15; then both tables are zeroed. A form that is longer than any that is ready is
// refused, and nothing changes then.
pub fn settle(
    form: &[u8],
    m: Letters,
    tree: &SuffixTree,
    n: Factors,
    first: &mut [u16],
    second: &mut [u16],
    witness: &mut [u8],
) -> Result<Option<Factors>, Refusal>
    ensures { (gens : List Word) → ReadyTree gens m.0 tree.now form.now
        → SettlesForm m.0 gens (word form.now) n.0 result
        (record { first = first.old; second = second.old; witness = witness.old })
        (record { first = first.new; second = second.new; witness = witness.new }) }
{
    if limits::WORD_LETTERS < form.len() {
        return Err(Refusal::TooManyLetters);
    }
    let t = Letters(form.len() as u16);
    let verdict = decide(form, tree, n, first, second, witness);
    sizes::zero_table(first, m, t);
    sizes::zero_table(second, m, t);
    verdict
}

// The same where the sizes are still to be asked about.
pub(crate) fn judge_form(
    form: &[u8],
    m: Letters,
    tree: &SuffixTree,
    n: Factors,
    first: &mut [u16],
    second: &mut [u16],
    witness: &mut [u8],
) -> Result<Option<Factors>, Refusal>
    requires { length form.now ≤ most_letters }
    ensures { (gens : List Word) → ReadyTree gens m.0 tree.now form.now
        → JudgesForm m.0 gens (word form.now) n.0 result
        (record { first = first.old; second = second.old; witness = witness.old })
        (record { first = first.new; second = second.new; witness = witness.new }) }
{
    let t = Letters(form.len() as u16);
    sizes::of_sizes(m, t, n, first.len(), second.len(), witness.len())?;
    settle(form, m, tree, n, first, second, witness)
}
