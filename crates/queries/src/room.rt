// Arrays of a call's own, in which a list and a target are made ready.
ghost use Rattle.std.specs.Prelude.{◌≡◌, ◌≤◌, ◌<◌, length, take};
ghost use Rattle.limits.specs.Limits.{most_letters, most_generators, most_of_list};
ghost use Rattle.queries.specs.Posing.{ByQuestions, PosesForms, of_query};
ghost use Rattle.queries.specs.Arrays.{lent_in, zeros};

use crate::Posed;
use limits::WORD_LETTERS;
use trees::SuffixTree;
use words::{Letters, Refusal};

// Room for every target that the questions let pass, and for the tree of a list, of so many states and generators: a list without its inverses has fewer, and
// what it can't use need not be zeroed.
#[derive(Drop)]
pub struct Room<const STATES: usize, const GENERATORS: usize> {
    pub form: [u8; WORD_LETTERS],
    pub letters: [u8; STATES],
    pub rests: [u16; STATES],
    pub children_r: [u16; STATES],
    pub children_s: [u16; STATES],
    pub wholes: [u16; GENERATORS],
}

impl<const STATES: usize, const GENERATORS: usize> Room<STATES, GENERATORS> {
    pub fn new() -> Self
        ensures { lent_in result ≡ zeros STATES GENERATORS }
    {
        Room {
            form: [0; WORD_LETTERS],
            letters: [0; STATES],
            rests: [0; STATES],
            children_r: [0; STATES],
            children_s: [0; STATES],
            wholes: [0; GENERATORS],
        }
    }

    // As the function `pose`, where there is room for every list.
    pub fn pose(&mut self, bytes: &[u8], ends: &[u16], target: &[u8]) -> Result<Posed, Refusal>
        ensures { most_of_list < STATES → most_generators ≤ GENERATORS
            → ByQuestions (of_query bytes.now ends.now target.now) bytes.now ends.now target.now result (lent_in self.old) (lent_in self.new) }
    {
        crate::pose(
            bytes,
            ends,
            target,
            &mut self.form,
            &mut self.letters,
            &mut self.rests,
            &mut self.children_r,
            &mut self.children_s,
            &mut self.wholes,
        )
    }

    // As the function `pose_reduced`.
    pub fn pose_reduced(
        &mut self,
        list_letters: &[u8],
        list_ends: &[u16],
        target: &[u8],
    ) -> Result<Posed, Refusal>
        ensures { PosesForms list_letters.now list_ends.now target.now result (lent_in self.old) (lent_in self.new) }
    {
        crate::pose_reduced(
            list_letters,
            list_ends,
            target,
            &mut self.form,
            &mut self.letters,
            &mut self.rests,
            &mut self.children_r,
            &mut self.children_s,
            &mut self.wholes,
        )
    }

    // The form of a target that has t letters.
    pub fn form(&self, t: Letters) -> &[u8]
        ensures short { t.0 ≤ most_letters → result.now ≡ take t.0 self.now.form }
        ensures long { length result.now ≤ most_letters }
    {
        let end = usize::from(t.0);
        if end <= WORD_LETTERS {
            return &self.form[..end];
        }
        &self.form
    }

    // The tree, of `count` nodes, of a list of so many generators.
    pub fn tree(&self, count: usize, generators: usize) -> SuffixTree<'_>
        ensures nodes { (result.count ≡ count) × (result.letters.now ≡ self.now.letters) × (result.rests.now ≡ self.now.rests)
            × (result.children_r.now ≡ self.now.children_r) × (result.children_s.now ≡ self.now.children_s) }
        ensures wholes { generators ≤ GENERATORS → result.wholes.now ≡ take generators self.now.wholes }
    {
        let wholes = if generators <= GENERATORS {
            &self.wholes[..generators]
        } else {
            &self.wholes[..]
        };
        SuffixTree {
            count,
            letters: &self.letters,
            rests: &self.rests,
            children_r: &self.children_r,
            children_s: &self.children_s,
            wholes,
        }
    }
}
