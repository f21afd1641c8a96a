// The tree of suffixes of a list of generators: its nodes are the states of the engine's tables, each with one number.
#![tactic(auto)]

pub mod entries;
mod fitting;
mod growing;
mod reading;

ghost use Rattle.trees.specs.Building.{Builds};

// A tree of suffixes, as it stands in slices: of each of its nodes the letter, the rest, and the children by R and by S; and of each generator the node of the
// whole of it. Nothing is asked of the slices, which may have more places than there are nodes.
#[derive(Clone, Copy)]
pub struct SuffixTree<'a> {
    pub count: usize,
    pub letters: &'a [u8],
    pub rests: &'a [u16],
    pub children_r: &'a [u16],
    pub children_s: &'a [u16],
    pub wholes: &'a [u16],
}

// Inputs that do not fit. What answers so has changed nothing.
#[derive(Clone, Copy)]
pub struct Unfit;

// Builds the tree of the list's generators in the lent slices, and answers how many nodes it has. The nodes are numbered as they are read; what
// stands behind them is left, and so is the letter of node 0. Where the inputs do not fit nothing changes.
pub fn build(
    bytes: &[u8],
    ends: &[u16],
    letters: &mut [u8],
    rests: &mut [u16],
    children_r: &mut [u16],
    children_s: &mut [u16],
    wholes: &mut [u16],
) -> Result<usize, Unfit>
    ensures { Builds bytes.now ends.now
        (record {
          letters = letters.old;
          rests = rests.old;
          children_r = children_r.old;
          children_s = children_s.old;
          wholes = wholes.old;
        })
        (record {
          letters = letters.new;
          rests = rests.new;
          children_r = children_r.new;
          children_s = children_s.new;
          wholes = wholes.new;
        })
        result }
{
    if fitting::fits(bytes, ends, letters, rests, children_r, children_s, wholes) {
        Ok(reading::read_all(bytes, ends, letters, rests, children_r, children_s, wholes))
    } else {
        Err(Unfit)
    }
}
