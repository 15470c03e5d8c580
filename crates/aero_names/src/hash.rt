//! Numbers made of the bytes of a name. Nothing is known of them but that equal names have equal ones.
ghost use Rattle.std.specs.Prelude.{◌≡◌, ◌-◌, drop, length};
ghost use Rattle.aero_names.specs.Hash.{mixed as mixed_in, short_word as word_in, mixed_again as mixed_again_in, hash_from as hash_from_start, hash_of_key as key_hash, hash_of_long as long_hash, hash_of as hash_in, second_hash_of_key as second_key_hash, second_hash_of_long as second_long_hash, second_hash_of as second_hash_in, hash_by as hash_in_by};

use crate::key::{Key, key_of};

// An odd number with no pattern in its bits.
const FACTOR: u64 = 17_378_887_893_183_147_461;

// What the second hash starts from, beside a name's length: another such number.
const SECOND_START: u64 = 11_400_714_819_323_198_485;

// Of so many of its last bytes the first hash of a long name is made.
const TAIL: usize = 24;

// By which of its hashes a name is found.
#[derive(Clone, Copy, PartialEq, Eq)]
pub(crate) enum Hashing {
    First,
    Second,
}

// What is left of the word, and of what was mixed before it.
#[inline(always)]
#[tactic(auto, unfolding(crate::specs::Hash::mixed))]
fn mixed(hash: u64, word: u64) -> u64
    ensures { result ≡ mixed_in hash word }
{
    (hash.rotate_left(5) ^ word).wrapping_mul(FACTOR)
}

// Mixed once more, so that each byte counts in the upper half of the number.
#[inline(always)]
fn mixed_again(last: u64) -> u64
    ensures { result ≡ mixed_again_in last }
{
    mixed(last, last >> 32)
}

// The bytes as one number, where they are fewer than eight.
#[inline(always)]
fn short_word(bytes: &[u8]) -> u64
    ensures { result ≡ word_in bytes.now }
{
    let mut word = 0u64;
    for byte in bytes {
        word = word.wrapping_mul(256).wrapping_add(*byte as u64);
    }
    word
}

// The hash of a name with this key.
#[inline(always)]
#[tactic(auto, unfolding(crate::specs::Hash::hash_of_key))]
pub(crate) fn hash_of_key(key: Key) -> u64
    ensures { result ≡ key_hash key }
{
    mixed_again(mixed(mixed(key.length, key.first), key.last))
}

// The hash of a name with no key, of its last bytes alone: most names differ there. Where many don't they are found by
// their second hash, which is of all bytes.
#[inline(always)]
pub(crate) fn hash_of_long(name: &[u8]) -> u64
    ensures { result ≡ long_hash name.now }
{
    hash_of_words(name.len() as u64, tail_of(name))
}

// The last 24 bytes of the name, or all.
#[inline(always)]
fn tail_of(name: &[u8]) -> &[u8]
    ensures { result.now ≡ drop (length name.now - 24) name.now }
{
    let start = name.len().saturating_sub(TAIL);
    &name[start..]
}

// The words of eight bytes and the rest, mixed from this start on.
#[inline(always)]
fn hash_of_words(start: u64, name: &[u8]) -> u64
    ensures { result ≡ mixed_again_in (hash_from_start start name.now) }
{
    let mut hash = start;
    let mut rest = name;
    while let Some((word, behind)) = rest.split_first_chunk::<8>() {
        hash = mixed(hash, u64::from_le_bytes(*word));
        rest = behind;
    }
    mixed_again(mixed(hash, short_word(rest)))
}

// The hash of a name.
pub(crate) fn hash_of(name: &[u8]) -> u64
    ensures { result ≡ hash_in name.now }
{
    match key_of(name) {
        Some(key) => hash_of_key(key),
        None => hash_of_long(name),
    }
}

// Of the name, whose hash this is, the one that names are found by.
#[inline(always)]
pub(crate) fn hash_by(hashing: Hashing, name: &[u8], hash: u64) -> u64
    requires { hash ≡ hash_in name.now }
    ensures { result ≡ hash_in_by hashing name.now }
{
    match hashing {
        Hashing::First => hash,
        Hashing::Second => second_hash_of(name),
    }
}

// Another hash of a name, made in the same way from another start: names that share the one seldom share the other.
fn second_hash_of(name: &[u8]) -> u64
    ensures { result ≡ second_hash_in name.now }
{
    match key_of(name) {
        Some(key) => second_hash_of_key(key),
        None => second_hash_of_long(name),
    }
}

#[tactic(auto, unfolding(crate::specs::Hash::second_hash_of_key))]
fn second_hash_of_key(key: Key) -> u64
    ensures { result ≡ second_key_hash key }
{
    mixed_again(mixed(mixed(key.length ^ SECOND_START, key.first), key.last))
}

fn second_hash_of_long(name: &[u8]) -> u64
    ensures { result ≡ second_long_hash name.now }
{
    hash_of_words(name.len() as u64 ^ SECOND_START, name)
}
