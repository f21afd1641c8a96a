// A word is read backwards into the tree: from its last letter to its first, each time from a node to its child by the letter read, which
// is made where it is missing. 0 stands for no child: node 0, the empty word, is nobody's child.
// The slices of the nodes are passed one by one, and not as one value: the children by either letter come first, by the letter read.
ghost use Rattle.std.specs.Prelude.{◌≡◌, ◌∷◌, ◌+◌, ◌-◌, ◌≤◌, ◌<◌, length, set};
ghost use Rattle.std.proofs.Math.Seq.{slice};
ghost use Rattle.words.specs.Word.{Letter, R, S};
ghost use Rattle.words.specs.Bytes.{letter, byte as byte_of, word as word_of};
ghost use Rattle.trees.specs.Tree.{word_at};
ghost use Rattle.trees.specs.Numbering.{with_word, with_suffixes};
ghost use Rattle.trees.specs.Growing.{node_slices, SomeGrown, RoomFor, Grows};

use crate::entries::entry;

// A node, and how many nodes there are.
#[derive(Drop)]
pub(crate) struct Place {
    pub(crate) node: usize,
    pub(crate) count: usize,
}

// A new node, the child of `parent` by the letter `byte`, at the next number. `children` are the children by that letter.
fn add_node(
    letters: &mut [u8],
    rests: &mut [u16],
    children: &mut [u16],
    others: &mut [u16],
    parent: usize,
    count: usize,
    byte: u8,
)
    requires parent_lt_count { parent < count }
    requires room_for { RoomFor (count + 1) (node_slices letters.old rests.old children.old others.old) }
    ensures { (letters.new ≡ set letters.old count byte)
        × (rests.new ≡ set rests.old count parent)
        × (children.new ≡ set (set children.old count 0) parent count)
        × (others.new ≡ set others.old count 0) }
{
    letters[count] = byte;
    rests[count] = parent as u16;
    children[count] = 0;
    others[count] = 0;
    children[parent] = count as u16;
}

// The child of a node by a letter, made where it is missing. `children` are the children by that letter, `others` those by the other one.
fn child_by(
    letters: &mut [u8],
    rests: &mut [u16],
    children: &mut [u16],
    others: &mut [u16],
    place: Place,
    byte: u8,
) -> Place
    requires node_lt_count { place.node < place.count }
    requires room_for { RoomFor (place.count + 1) (node_slices letters.old rests.old children.old others.old) }
    ensures { (a b : Letter) → (a ≡ b → ⊥) → byte ≡ byte_of a
        → Grows a b with_word (λ words. a ∷ word_at words place.node) 1 place.count
        (node_slices letters.old rests.old children.old others.old)
        (node_slices letters.new rests.new children.new others.new)
        result.node result.count }
{
    let count = place.count;
    let parent = place.node;
    let child = entry(children, parent);
    if 0 < child {
        return Place { node: child, count };
    }
    add_node(letters, rests, children, others, parent, count, byte);
    Place {
        node: count,
        count: count + 1,
    }
}

// The child of a node by the letter of a byte: `b'R'` is R, and any other byte is taken for S.
fn child(
    letters: &mut [u8],
    rests: &mut [u16],
    children_r: &mut [u16],
    children_s: &mut [u16],
    place: Place,
    byte: u8,
) -> Place
    requires node_lt_count { place.node < place.count }
    requires room_for { RoomFor (place.count + 1) (node_slices letters.old rests.old children_r.old children_s.old) }
    ensures { Grows R S with_word (λ words. letter byte ∷ word_at words place.node) 1 place.count
        (node_slices letters.old rests.old children_r.old children_s.old)
        (node_slices letters.new rests.new children_r.new children_s.new)
        result.node result.count }
{
    if byte == b'R' {
        return child_by(letters, rests, children_r, children_s, place, b'R');
    }
    child_by(letters, rests, children_s, children_r, place, b'S')
}

// Reads the bytes from `end` down to `from`, and answers where that ends.
pub(crate) fn read_backwards(
    bytes: &[u8],
    from: usize,
    end: usize,
    letters: &mut [u8],
    rests: &mut [u16],
    children_r: &mut [u16],
    children_s: &mut [u16],
    count: usize,
) -> Place
    requires from_le_end { (from ≤ end) × (end ≤ length bytes.now) }
    requires room_for { RoomFor (count + (end - from)) (node_slices letters.old rests.old children_r.old children_s.old) }
    requires some_grown { SomeGrown R S count (node_slices letters.old rests.old children_r.old children_s.old) }
    ensures { Grows R S with_suffixes (λ words. word_of (slice from end bytes.now)) (end - from) count
        (node_slices letters.old rests.old children_r.old children_s.old)
        (node_slices letters.new rests.new children_r.new children_s.new)
        result.node result.count }
{
    let mut place = Place { node: 0, count };
    for i in (from..end).rev() {
        place = child(letters, rests, children_r, children_s, place, bytes[i]);
    }
    place
}
