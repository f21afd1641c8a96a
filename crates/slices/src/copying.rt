// A slice into which another is copied.
ghost use Rattle.std.specs.Prelude.{◌≡◌, ◌+◌, ◌≤◌, length};
ghost use Rattle.std.proofs.Math.Seq.{paste};
ghost use Rattle.slices.specs.Slices.{Pastes};

// Writes all of `from`, for which there is room, to `to` from the place `at` on. By place: `copy_from_slice` would have the archive for C ask for `memmove`.
fn copy_fitting(from: &[u8], to: &mut [u8], at: usize)
    requires { at + length from.now ≤ length to.old }
    ensures { to.new ≡ paste to.old at from.now (length from.now) }
{
    for i in 0..from.len() {
        to[at + i] = from[i];
    }
}

// Writes all of `from` to `to` from the place `at` on, where there is room; else changes nothing. The answer says which.
pub fn copy_at(from: &[u8], to: &mut [u8], at: usize) -> bool
    ensures { Pastes from.now at to.old result to.new }
{
    if to.len() < at || to.len() - at < from.len() {
        return false;
    }
    copy_fitting(from, to, at);
    true
}
