// The rows of a target, carried behind the table of pairs: both are one table of counts then.
ghost use Rattle.std.specs.Prelude.{◌≡◌, ◌+◌, ◌≤◌, length};
ghost use Rattle.std.proofs.Math.Seq.{paste};

// Writes all of `rows`, for which there is room, to `table` from the place `at` on. By place: `copy_from_slice` would have the archive for C ask for `memmove`.
pub(crate) fn carry(rows: &[u16], table: &mut [u16], at: usize)
    requires { at + length rows.now ≤ length table.old }
    ensures { table.new ≡ paste table.old at rows.now (length rows.now) }
{
    for i in 0..rows.len() {
        table[at + i] = rows[i];
    }
}
