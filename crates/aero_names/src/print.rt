//! A number made of all bytes of a name, of which nobody knows how to make many names have the same: a name with a key
//! has it of that, and few names of different lengths share it; any other has it of its SHA-256, which is slow to make.
ghost use Rattle.std.specs.Prelude.{◌≡◌};
ghost use Rattle.aero_names.specs.Hash.{print_of as print_in, print_of_key as key_print, print_of_long as long_print};

use crate::key::{Key, key_of};
use sha2::{Digest, Sha256};

// 2^64
const BASE: u128 = 18_446_744_073_709_551_616;

pub(crate) fn print_of(name: &[u8]) -> u128
    ensures { result ≡ print_in name.now }
{
    match key_of(name) {
        Some(key) => print_of_key(key),
        None => print_of_long(name),
    }
}

// The last bytes of the name, and its first.
#[tactic(auto, unfolding(crate::specs::Hash::print_of_key))]
fn print_of_key(key: Key) -> u128
    ensures { result ≡ key_print key }
{
    key.last as u128 * BASE + key.first as u128
}

// The first sixteen bytes of the name's SHA-256, as a number.
fn print_of_long(name: &[u8]) -> u128
    ensures { result ≡ long_print name.now }
{
    let digest: [u8; 32] = Sha256::digest(name);
    let Some((first, _)) = digest.as_slice().split_first_chunk::<16>() else {
        unreachable!()
    };
    u128::from_le_bytes(*first)
}
