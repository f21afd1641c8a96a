// The products of some images: an image is marked when it is one, and stands in the queue from then on. Each in the queue is multiplied on its left by each
// image that is taken in, once, by a look into that image's row.
ghost use Rattle.std.specs.Prelude.{◌≡◌, ◌+◌, ◌*◌, ◌≤◌, ◌<◌, length, get_or, replicate};
ghost use Rattle.refusals.specs.Telling.{Tells};
ghost use Rattle.quick.specs.Closing.{RowsRight, Marked, Seen, Visits, Spreads, Closes, TakesIn, first_new};

use crate::table::{MATRICES, fill_row};
use limits::GENERATORS;

// Room for the rows of all generators' images.
const ROOM: usize = GENERATORS * MATRICES;

// The images taken in, each by its row: its products with all others.
#[derive(Drop)]
pub(crate) struct Rows {
    pub(crate) entries: [u8; ROOM],
    pub(crate) taken: usize,
}

impl Rows {
    // No image yet.
    pub(crate) fn new() -> Rows
        ensures { result ≡ record { entries = replicate 10752 0; taken = 0 } }
    {
        Rows {
            entries: [0; ROOM],
            taken: 0,
        }
    }

    // The product of image b of those taken in with an image on its right.
    fn product(&self, b: usize, k: u8) -> u8
        requires k_bound { k < 168 }
        requires b_in_bounds { b * 168 + 168 ≤ length self.now.entries }
        ensures { result ≡ get_or self.now.entries (b * 168 + k) 0 }
    {
        self.entries[b * MATRICES + usize::from(k)]
    }
}

// The marks, and the queue of the images that are marked: its first `count`.
#[derive(Drop)]
pub(crate) struct Marks {
    pub(crate) visited: [u8; MATRICES],
    pub(crate) queue: [u8; MATRICES],
    pub(crate) count: usize,
}

impl Marks {
    // No image is marked yet.
    pub(crate) fn new() -> Marks
        ensures { result ≡ record { visited = replicate 168 0; queue = replicate 168 0; count = 0 } }
    {
        Marks {
            visited: [0; MATRICES],
            queue: [0; MATRICES],
            count: 0,
        }
    }

    // Is the image marked?
    pub(crate) fn has(&self, k: u8) -> bool
        requires { k < 168 }
        ensures { Tells result (Seen self.now.visited k) }
    {
        self.visited[usize::from(k)] != 0
    }

    // Marks an image that is a product, and puts it behind the queue, unless it stands there.
    fn visit(&mut self, k: u8)
        requires k_bound { k < 168 }
        requires marked { Marked self.old.visited self.old.queue self.old.count }
        ensures { Visits k self.old.visited self.old.queue self.old.count self.new.visited self.new.queue self.new.count }
    {
        let at = usize::from(k);
        if self.visited[at] == 0 {
            self.visited[at] = 1;
            self.queue[self.count] = k;
            self.count += 1;
        }
    }

    // Multiplies image i of the queue by those taken in, from image `from` up to the last.
    fn spread(&mut self, i: usize, rows: &Rows, from: usize)
        requires rows_right { RowsRight rows.now.entries rows.now.taken }
        requires marked { Marked self.old.visited self.old.queue self.old.count }
        requires i_lt_count { i < self.old.count }
        ensures { Spreads rows.now.entries from rows.now.taken rows.now.taken i self.old.visited self.old.queue self.old.count
            self.new.visited self.new.queue self.new.count }
    {
        let k = self.queue[i];
        for b in from..rows.taken {
            self.visit(rows.product(b, k));
        }
    }

    // Multiplies all of the queue, of which the first `old` were multiplied by all but the last image taken in, until nothing is new, or the target's image is
    // marked.
    fn close(&mut self, rows: &Rows, old: usize, target: u8)
        requires taken_nonzero { 0 < rows.now.taken }
        requires le_count { old ≤ self.old.count }
        requires target_bound { target < 168 }
        requires rows_right { RowsRight rows.now.entries rows.now.taken }
        requires marked { Marked self.old.visited self.old.queue self.old.count }
        ensures { Closes rows.now.entries rows.now.taken old target self.old.visited self.old.queue self.old.count
            self.new.visited self.new.queue self.new.count }
    {
        let mut i = 0;
        // By index: the queue grows on the way.
        while i < self.count {
            if self.has(target) {
                return;
            }
            self.spread(i, rows, first_new(i, old, rows.taken));
            i += 1;
        }
    }
}

// Which image is the first that image i of the queue was not multiplied by: the last one where it stood in the queue before that was taken in, and else the
// first.
fn first_new(i: usize, old: usize, taken: usize) -> usize
    requires { 0 < taken }
    ensures { result ≡ first_new i old taken }
{
    if i < old { taken - 1 } else { 0 }
}

// Takes an image in, unless it is a product of those taken in already: then it brings nothing new.
pub(crate) fn take_in(image: u8, target: u8, rows: &mut Rows, marks: &mut Marks)
    requires image_bound { image < 168 }
    requires target_bound { target < 168 }
    requires rows_right { RowsRight rows.old.entries rows.old.taken }
    requires taken_in_bounds { rows.old.taken * 168 + 168 ≤ length rows.old.entries }
    requires marked { Marked marks.old.visited marks.old.queue marks.old.count }
    ensures { TakesIn image target rows.old marks.old rows.new marks.new }
{
    if marks.has(image) {
        return;
    }
    fill_row(image, &mut rows.entries, rows.taken * MATRICES);
    rows.taken += 1;
    let old = marks.count;
    marks.visit(image);
    marks.close(rows, old, target);
}
