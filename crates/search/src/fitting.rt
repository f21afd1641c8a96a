// Whether what is not the table's affair fits: the rows of the target, the choices, and the witness.
ghost use Rattle.refusals.specs.Telling.{Tells};
ghost use Rattle.search.specs.Search.{Room};

use words::Factors;

// A factor is written as a byte.
const NUMBERS: usize = 256;

pub(crate) fn has_room(
    letters: usize,
    count: usize,
    generators: usize,
    n: Factors,
    first: usize,
    second: usize,
    witness: usize,
) -> bool
    ensures { Tells result (Room count n.0 letters generators first second witness) }
{
    count <= limits::STATES_ROOM
        && letters <= limits::WORD_LETTERS
        && generators <= NUMBERS
        && n.0 as usize <= witness
        && (count + letters) * count <= first
        && (count + letters) * count <= second
}
