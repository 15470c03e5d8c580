//! What a name of up to 16 bytes is found by: two names with one key are the same.
ghost use Rattle.std.specs.Prelude.{◌≡◌, ◌<◌, ◌≤◌, length, MatchOption};
ghost use Rattle.std.specs.Int.{w16, w32, w64};
ghost use Rattle.aero_names.specs.Keys.{words_of, ends_of as ends_in, key_of as key_in, kept_key as kept_in};

// How many bytes a name with a key has at most.
const MOST_BYTES: usize = 16;

// The first and the last bytes of a name, as many as are read at once, and how many it has in all.
#[derive(Clone, Copy, PartialEq, Eq)]
pub(crate) struct Key {
    pub(crate) first: u64,
    pub(crate) last: u64,
    pub(crate) length: u64,
}

// The key of the name, or None where it has over 16 bytes.
#[inline(always)]
#[tactic(auto, unfolding(crate::specs::Keys::key_of))]
pub(crate) fn key_of(name: &[u8]) -> Option<Key>
    ensures { result ≡ key_in name.now }
{
    if name.len() > MOST_BYTES {
        return None;
    }
    let (first, last) = ends_of(name);
    Some(Key {
        first,
        last,
        length: name.len() as u64,
    })
}

// What is kept for the name: its key, or one that no name has.
pub(crate) fn kept_key(name: &[u8]) -> Key
    ensures { result ≡ kept_in name.now }
{
    match key_of(name) {
        Some(key) => key,
        None => Key {
            first: 0,
            last: 0,
            length: u64::MAX,
        },
    }
}

// The first and the last bytes of the name, as many as are read at once.
#[inline(always)]
fn ends_of(name: &[u8]) -> (u64, u64)
    ensures { result ≡ ends_in name.now }
{
    if let Some(ends) = eight_bytes(name) {
        return ends;
    }
    if let Some(ends) = four_bytes(name) {
        return ends;
    }
    if let Some(ends) = two_bytes(name) {
        return ends;
    }
    match name.first() {
        Some(byte) => (*byte as u64, 0),
        None => (0, 0),
    }
}

// Its first eight bytes and its last eight, each as one number, where it has as many.
#[inline(always)]
fn eight_bytes(name: &[u8]) -> Option<(u64, u64)>
    ensures { MatchOption result (length name.now < 8) (λ ends. (8 ≤ length name.now) ×
        (ends ≡ words_of w64 name.now)) }
{
    let first = name.first_chunk::<8>()?;
    let last = name.last_chunk::<8>()?;
    Some((u64::from_le_bytes(*first), u64::from_le_bytes(*last)))
}

// The same of four bytes.
#[inline(always)]
fn four_bytes(name: &[u8]) -> Option<(u64, u64)>
    ensures { MatchOption result (length name.now < 4) (λ ends. (4 ≤ length name.now) ×
        (ends ≡ words_of w32 name.now)) }
{
    let first = name.first_chunk::<4>()?;
    let last = name.last_chunk::<4>()?;
    Some((
        u32::from_le_bytes(*first) as u64,
        u32::from_le_bytes(*last) as u64,
    ))
}

// The same of two bytes.
#[inline(always)]
fn two_bytes(name: &[u8]) -> Option<(u64, u64)>
    ensures { MatchOption result (length name.now < 2) (λ ends. (2 ≤ length name.now) ×
        (ends ≡ words_of w16 name.now)) }
{
    let first = name.first_chunk::<2>()?;
    let last = name.last_chunk::<2>()?;
    Some((
        u16::from_le_bytes(*first) as u64,
        u16::from_le_bytes(*last) as u64,
    ))
}
