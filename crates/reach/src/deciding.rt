// The verdict on a list and a target that are ready: the sizes are asked for, the table of yes and no is closed, the target's rows are read over it, and what
// stands at the end of the last row decides.
ghost use Rattle.std.specs.Prelude.{List, ◌≡◌, ℕ, ◌≤◌, length};
ghost use Rattle.limits.specs.Limits.{most_letters, most_states};
ghost use Rattle.words.specs.Word.{Word};
ghost use Rattle.words.specs.Bytes.{word};
ghost use Rattle.sizes.specs.Questions.{side};
ghost use Rattle.queries.specs.Ready.{ReadyTree};
ghost use Rattle.refusals.specs.Questions.{passed};
ghost use Rattle.reach.specs.Questions.{of_room};
ghost use Rattle.reach.specs.Deciding.{Decides, ReachesForm};

use trees::SuffixTree;
use trees::entries::entry;
use words::{Factors, Letters, Refusal};

// The bound of a table of yes and no, in which a series weighs nothing: an entry up to it is a yes, and one more is a no.
const NO_WEIGHT: Factors = Factors(1);

// The verdict on a reduced target. What is ready fits, so the table is closed and the rows are filled.
fn decide(form: &[u8], tree: &SuffixTree, first: &mut [u16], second: &mut [u16]) -> bool
    requires count_le_most_states { tree.now.count ≤ most_states }
    requires form_len_bound { length form.now ≤ most_letters }
    ensures { (gens : List Word) (m : ℕ) → ReadyTree gens m tree.now form.now
        → of_room m (length form.now) (length first.old) (length second.old) ≡ passed
        → Decides (side m (length form.now)) gens (word form.now) result
        (record { first = first.old; second = second.old })
        (record { first = first.new; second = second.new }) }
{
    let _ = tables::close(tree, first);
    let _ = rows::fill(form, tree, NO_WEIGHT, first, second);
    entry(second, form.len() * tree.count) == 0
}

// Questions 12 and 15, where `first` and `second` are the lengths of the lent tables.
fn of_room(m: Letters, t: Letters, first: usize, second: usize) -> Result<(), Refusal>
    ensures { result ≡ of_room m.0 t.0 first second }
{
    sizes::of_form(t)?;
    sizes::of_tables(m, t, first, second)
}

// The verdict on what is ready, where the sizes pass questions 12 and 15. Then both tables are zeroed.
pub(crate) fn reach_form(
    form: &[u8],
    m: Letters,
    tree: &SuffixTree,
    first: &mut [u16],
    second: &mut [u16],
) -> Result<bool, Refusal>
    requires count_le_most_states { tree.now.count ≤ most_states }
    requires form_len_bound { length form.now ≤ most_letters }
    ensures { (gens : List Word) → ReadyTree gens m.0 tree.now form.now
        → ReachesForm m.0 gens (word form.now) result
        (record { first = first.old; second = second.old })
        (record { first = first.new; second = second.new }) }
{
    let t = Letters(form.len() as u16);
    of_room(m, t, first.len(), second.len())?;
    let verdict = decide(form, tree, first, second);
    sizes::zero_table(first, m, t);
    sizes::zero_table(second, m, t);
    Ok(verdict)
}
