// From a list and a target that have passed questions 7 to 10 to the signed verdict: the list is reduced, and its inverses behind it; the target and the tree
// are made ready; the sizes are asked about, and the verdict is settled and written by signed numbers.
ghost use Rattle.std.specs.Prelude.{List, map, ◌≡◌, ◌≤◌, length};
ghost use Rattle.limits.specs.Limits.{most_letters};
ghost use Rattle.refusals.specs.Questions.{passed, of_letters};
ghost use Rattle.words.specs.Word.{Word, nf};
ghost use Rattle.words.specs.Bytes.{word};
ghost use Rattle.products.specs.Product.{generators, with_inverses};
ghost use Rattle.lists.specs.Questions.{of_list};
ghost use Rattle.lists.specs.NormalList.{total};
ghost use Rattle.queries.specs.Posing.{ReducedList};
ghost use Rattle.queries.specs.Ready.{ReadyTree};
ghost use Rattle.subgroups.specs.Judging.{InverseForms, Doubled, JudgesSizes, JudgesList};

use crate::asking::of_signed_sizes;
use crate::signing::sign_factors;
use engine::judging::settle;
use limits::{SIGNED_GENERATORS, STATES_ROOM};
use queries::room::Room;
use slices::copying::copy_at;
use trees::SuffixTree;
use words::{Factors, Letters, Refusal};

// The verdict on what is ready, by the tree of a list of `generators` generators and as many inverses, whose normal forms `forms` has.
fn judge_form(
    form: &[u8],
    m: Letters,
    tree: &SuffixTree,
    forms: &[u8],
    generators: usize,
    n: Factors,
    first: &mut [u16],
    second: &mut [u16],
    witness: &mut [u8],
    inverses: &mut [u8],
) -> Result<Option<Factors>, Refusal>
    requires { length form.now ≤ most_letters }
    ensures { (gens : List Word) (target : Word)
        → ReadyTree (map nf (with_inverses gens)) m.0 tree.now form.now
        → m.0 ≡ total (with_inverses gens) → word form.now ≡ nf target → InverseForms gens forms.now generators
        → JudgesSizes gens target n.0 result
        (record { first = first.old; second = second.old; witness = witness.old })
        (record { first = first.new; second = second.new; witness = witness.new })
        inverses.old inverses.new }
{
    let t = Letters(form.len() as u16);
    of_signed_sizes(
        m,
        t,
        n,
        first.len(),
        second.len(),
        witness.len(),
        inverses.len(),
    )?;
    let verdict = settle(form, m, tree, n, first, second, witness);
    sign_factors(verdict, generators, witness);
    copy_at(forms, inverses, 0);
    verdict
}

// The same of a list that is reduced, with its inverses behind its first `given` letters, and a target that has passed questions 8 and 10.
fn judge_reduced(
    list_letters: &[u8],
    list_ends: &[u16],
    given: usize,
    generators: usize,
    target: &[u8],
    n: Factors,
    first: &mut [u16],
    second: &mut [u16],
    witness: &mut [u8],
    inverses: &mut [u8],
) -> Result<Option<Factors>, Refusal>
    requires reduced_list { ReducedList list_letters.now list_ends.now }
    requires given_in_bounds { given ≤ length list_letters.now }
    requires target_value { of_letters target.now ≡ passed }
    ensures { (gens : List Word) → Doubled gens list_letters.now list_ends.now given generators
        → JudgesSizes gens (word target.now) n.0 result
        (record { first = first.old; second = second.old; witness = witness.old })
        (record { first = first.new; second = second.new; witness = witness.new })
        inverses.old inverses.new }
{
    let mut room = Room::<STATES_ROOM, SIGNED_GENERATORS>::new();
    let posed = room.pose_reduced(list_letters, list_ends, target)?;
    let form = room.form(posed.t);
    let tree = room.tree(posed.count, list_ends.len());
    judge_form(
        form,
        posed.m,
        &tree,
        &list_letters[given..],
        generators,
        n,
        first,
        second,
        witness,
        inverses,
    )
}

// The same of a list and a target that have passed questions 7 to 10.
pub(crate) fn judge_list(
    bytes: &[u8],
    ends: &[u16],
    target: &[u8],
    n: Factors,
    first: &mut [u16],
    second: &mut [u16],
    witness: &mut [u8],
    inverses: &mut [u8],
) -> Result<Option<Factors>, Refusal>
    requires { of_list bytes.now ends.now target.now ≡ passed }
    ensures { JudgesList (generators bytes.now ends.now) (word target.now) n.0 result
        (record { first = first.old; second = second.old; witness = witness.old })
        (record { first = first.new; second = second.new; witness = witness.new })
        inverses.old inverses.new }
{
    let mut list_letters = [0u8; limits::SIGNED_ROOM];
    let mut list_ends = [0u16; limits::SIGNED_GENERATORS];
    let lengths = lists::reduce_signed(bytes, ends, &mut list_letters, &mut list_ends)?;
    judge_reduced(
        &list_letters[..usize::from(lengths.all.0)],
        &list_ends[..2 * ends.len()],
        usize::from(lengths.given.0),
        ends.len(),
        target,
        n,
        first,
        second,
        witness,
        inverses,
    )
}
