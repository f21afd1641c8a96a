// Inside, a signed list is the list with its inverses behind it. The factors that were found there are written by their signed numbers.
ghost use Rattle.std.specs.Prelude.{◌≡◌, map};
ghost use Rattle.subgroups.specs.Signing.{signed_byte, signed_factors};

use words::{Factors, Refusal};

// What an inverse's number has before the generator's.
pub(crate) const INVERSE: u8 = 128;

// The signed number of a place in a list of `generators` generators and as many inverses.
fn signed_number(generators: usize, i: u8) -> u8
    ensures { result ≡ signed_byte generators i }
{
    if (i as usize) < generators {
        return i;
    }
    let j = i - generators as u8;
    if j < INVERSE {
        return INVERSE + j;
    }
    j
}

// All numbers of a series become signed ones.
fn sign(generators: usize, series: &mut [u8])
    ensures { series.new ≡ map (signed_byte generators) series.old }
{
    for number in series.iter_mut() {
        *number = signed_number(generators, *number);
    }
}

// So do the factors that a verdict has in the front of the witness.
pub(crate) fn sign_factors(
    verdict: Result<Option<Factors>, Refusal>,
    generators: usize,
    witness: &mut [u8],
)
    ensures { witness.new ≡ signed_factors verdict generators witness.old }
{
    if let Ok(Some(count)) = verdict {
        let k = usize::from(count.0);
        if k <= witness.len() {
            sign(generators, &mut witness[..k]);
        }
    }
}
