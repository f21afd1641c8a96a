// Whether the lent slices have room for a target's form, and for the tree of a list.
ghost use Rattle.refusals.specs.Telling.{Tells};
ghost use Rattle.queries.specs.Posing.{Room};

// Of a list of at most `most` letters and `generators` generators.
pub(crate) fn has_room(
    most: usize,
    generators: usize,
    form: usize,
    letters: usize,
    rests: usize,
    children_r: usize,
    children_s: usize,
    wholes: usize,
) -> bool
    ensures { Tells result (Room most generators form letters rests children_r children_s wholes) }
{
    most <= limits::SIGNED_ROOM
        && limits::WORD_LETTERS <= form
        && most < letters
        && most < rests
        && most < children_r
        && most < children_s
        && generators <= wholes
}
