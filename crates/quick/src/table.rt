// The products of the 168 matrices modulo 7, up to sign, with the letters; and what is made of them: the image of a word, and the products of an image with
// all others.
ghost use Rattle.std.specs.Prelude.{◌≡◌, ℕ, ◌+◌, ◌≤◌, ◌<◌, length, get_or};
ghost use Rattle.words.specs.Word.{Letter};
ghost use Rattle.words.specs.Bytes.{letter, word};
ghost use Rattle.residues.specs.Residues.{image, times_letter, multiplied};
ghost use Rattle.quick.specs.Table.{column, letter_of, parent_of, column_of, Fills};

// How many matrices there are, how many besides the unit, and which one that is.
pub(crate) const MATRICES: usize = 168;

const OTHERS: usize = MATRICES - 1;

const UNIT: u8 = 21;

// Entry 2 k is the number of matrix k times R, and entry 2 k + 1 that of matrix k times S.
const PRODUCTS: [u8; 336] = [
    21, 27, 22, 21, 23, 22, 24, 23, 25, 24, 26, 25, 27, 26, 70, 73, 71, 74, 72, 75, 73, 76, 74, 70,
    75, 71, 76, 72, 119, 121, 120, 122, 121, 123, 122, 124, 123, 125, 124, 119, 125, 120, 0, 64, 1,
    65, 2, 66, 3, 67, 4, 68, 5, 69, 6, 63, 64, 113, 65, 115, 66, 117, 67, 112, 68, 114, 69, 116,
    63, 118, 113, 162, 115, 165, 117, 161, 112, 164, 114, 167, 116, 163, 118, 166, 162, 132, 165,
    128, 161, 131, 164, 127, 167, 130, 163, 126, 166, 129, 132, 83, 128, 78, 131, 80, 127, 82, 130,
    77, 126, 79, 129, 81, 83, 34, 78, 28, 80, 29, 82, 30, 77, 31, 79, 32, 81, 33, 34, 0, 28, 1, 29,
    2, 30, 3, 31, 4, 32, 5, 33, 6, 7, 109, 8, 110, 9, 111, 10, 105, 11, 106, 12, 107, 13, 108, 60,
    158, 57, 156, 61, 154, 58, 159, 62, 157, 59, 155, 56, 160, 109, 136, 110, 134, 111, 139, 105,
    137, 106, 135, 107, 133, 108, 138, 158, 87, 156, 88, 154, 89, 159, 90, 157, 84, 155, 85, 160,
    86, 136, 38, 134, 35, 139, 39, 137, 36, 135, 40, 133, 37, 138, 41, 87, 7, 88, 8, 89, 9, 90, 10,
    84, 11, 85, 12, 86, 13, 38, 60, 35, 57, 39, 61, 36, 58, 40, 62, 37, 59, 41, 56, 14, 152, 15,
    153, 16, 147, 17, 148, 18, 149, 19, 150, 20, 151, 54, 142, 52, 143, 50, 144, 55, 145, 53, 146,
    51, 140, 49, 141, 103, 93, 99, 96, 102, 92, 98, 95, 101, 91, 104, 94, 100, 97, 152, 44, 153,
    42, 147, 47, 148, 45, 149, 43, 150, 48, 151, 46, 142, 14, 143, 15, 144, 16, 145, 17, 146, 18,
    140, 19, 141, 20, 93, 54, 96, 52, 92, 50, 95, 55, 91, 53, 94, 51, 97, 49, 44, 103, 42, 99, 47,
    102, 45, 98, 43, 101, 48, 104, 46, 100,
];

// A tree of all matrices with the unit as its root: the others one after the other, each by the matrix that it is a product of, which comes before it, and by
// the letter, 0 for R and 1 for S.
const PARENTS: [u8; OTHERS] = [
    21, 21, 0, 64, 64, 27, 27, 28, 1, 6, 63, 113, 113, 22, 26, 26, 34, 35, 57, 65, 65, 5, 69, 118,
    118, 162, 162, 78, 29, 2, 25, 25, 33, 41, 56, 42, 99, 156, 156, 115, 115, 23, 4, 68, 116, 116,
    166, 166, 83, 132, 132, 134, 92, 50, 36, 58, 66, 66, 24, 32, 40, 62, 48, 104, 160, 141, 96, 96,
    88, 88, 128, 165, 165, 80, 30, 67, 114, 114, 163, 163, 81, 129, 129, 138, 97, 153, 155, 85,
    106, 144, 101, 159, 117, 117, 31, 39, 61, 47, 157, 145, 94, 86, 86, 20, 20, 52, 52, 110, 8, 8,
    149, 137, 51, 37, 112, 112, 167, 167, 79, 126, 126, 95, 150, 90, 111, 125, 120, 127, 12, 74,
    16, 16, 91, 91, 131, 161, 161, 38, 60, 46, 154, 142, 84, 84, 17, 17, 108, 13, 13, 151, 151,
    143, 143, 75, 11, 158, 87, 140, 103, 164, 93, 147, 124, 10, 72, 70, 14,
];

const LAST_LETTERS: [u8; OTHERS] = [
    0, 1, 1, 0, 1, 0, 1, 1, 0, 1, 0, 0, 1, 1, 0, 1, 1, 1, 0, 0, 1, 1, 0, 0, 1, 0, 1, 1, 1, 0, 0, 1,
    1, 1, 0, 1, 0, 0, 1, 0, 1, 1, 1, 0, 0, 1, 0, 1, 1, 0, 1, 1, 1, 0, 1, 0, 0, 1, 1, 1, 1, 0, 1, 0,
    0, 0, 0, 1, 0, 1, 1, 0, 1, 1, 1, 0, 0, 1, 0, 1, 1, 0, 1, 1, 1, 1, 1, 0, 1, 0, 0, 1, 0, 1, 1, 1,
    0, 1, 0, 0, 1, 0, 1, 0, 1, 0, 1, 1, 0, 1, 1, 1, 0, 1, 0, 1, 0, 1, 1, 0, 1, 1, 1, 0, 1, 1, 0, 1,
    0, 0, 0, 1, 0, 1, 1, 0, 1, 1, 0, 1, 0, 0, 0, 1, 0, 1, 1, 0, 1, 0, 1, 0, 1, 1, 1, 1, 0, 0, 0, 1,
    1, 1, 0, 0, 0, 0, 0,
];

// The column of a letter in the table: 0 for R, and 1 for S.
fn column_of(byte: u8) -> usize
    ensures { result ≡ column (letter byte) }
{
    if byte == b'R' { 0 } else { 1 }
}

// The product of a matrix with a letter, by their numbers.
fn times_letter(k: u8, column: usize) -> u8
    requires k_bound { k < 168 }
    requires column_bound { column < 2 }
    ensures { result ≡ times_letter k (letter_of column) }
{
    PRODUCTS[2 * usize::from(k) + column]
}

// The image of a word: its letters' products, from the unit on.
pub(crate) fn image_of(letters: &[u8]) -> u8
    ensures { result ≡ image (word letters.now) }
{
    let mut k = UNIT;
    for letter in letters {
        k = times_letter(k, column_of(*letter));
    }
    k
}

// The matrix that the i-th of the others is a product of, and the letter.
fn parent_of(i: usize) -> u8
    requires { i < 167 }
    ensures { result ≡ parent_of i }
{
    PARENTS[i]
}

fn last_letter_of(i: usize) -> usize
    requires { i < 167 }
    ensures { result ≡ column_of i }
{
    usize::from(LAST_LETTERS[i])
}

// Writes the products of an image with all 168 on its right to `rows` from the place `at` on, in the order of their numbers. Each takes one letter more than
// one that is there already.
pub(crate) fn fill_row(image: u8, rows: &mut [u8], at: usize)
    requires image_bound { image < 168 }
    requires at_in_bounds { at + 168 ≤ length rows.old }
    ensures { Fills image at rows.old rows.new }
{
    rows[at + usize::from(UNIT)] = image;
    for i in 0..OTHERS {
        let parent = parent_of(i);
        let column = last_letter_of(i);
        let child = times_letter(parent, column);
        let product = times_letter(rows[at + usize::from(parent)], column);
        rows[at + usize::from(child)] = product;
    }
}
