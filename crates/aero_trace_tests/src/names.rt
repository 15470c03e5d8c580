use aero_model::{LineFault, Name, ShapeFault};
use aero_names::{Names, NamesFault};
use std::alloc::Global;
use std::fmt::Display;

// The helpers below say that a row doesn't hold where memory is refused.

// A name, and what it is numbered as.
type Row<'a> = (&'a [u8], Result<u32, NamesFault>);

fn is_numbered(alloc: Global, names: &mut Names, row: &Row) -> bool {
    match Name::read(alloc, row.0) {
        Ok(name) => names.number(&name) == row.1,
        Err(_) => false,
    }
}

fn has_number(names: &Names, row: &Row) -> bool {
    match row.1 {
        Ok(number) => names.name(number) == Some(row.0),
        Err(_) => true,
    }
}

// Whether the names are numbered so.
fn are_numbered(alloc: Global, names: &mut Names, rows: &[Row]) -> bool {
    let mut fits = true;
    for row in rows {
        fits &= is_numbered(alloc, names, row);
    }
    fits
}

// Whether each name stands by its number.
fn have_numbers(names: &Names, rows: &[Row]) -> bool {
    rows.iter().all(|row| has_number(names, row))
}

fn has_just(names: &Names, len: u32) -> bool {
    names.name(len).is_none() && names.len() == len && names.is_empty() == (len == 0)
}

// A limit, names and how they are numbered up to it, and how many they are in the end.
type Table<'a> = (u32, &'a [Row<'a>], u32);

// Whether a new table numbers the names so, and has so many in the end, each by its number.
fn numbers(alloc: Global, table: &Table) -> bool {
    let (limit, rows, len) = *table;
    let mut names = Names::new(alloc, limit);
    names.is_empty()
        && are_numbered(alloc, &mut names, rows)
        && have_numbers(&names, rows)
        && has_just(&names, len)
}

// The first table that isn't so.
fn first_misnumbered(alloc: Global, tables: &[Table]) -> Option<usize> {
    tables.iter().position(|table| !numbers(alloc, table))
}

const FEW: [Row; 4] = [
    (b"x", Ok(0)),
    (b"y", Ok(1)),
    (b"x", Ok(0)),
    (b"z", Err(NamesFault::Full)),
];

const NONE: [Row; 1] = [(b"x", Err(NamesFault::Full))];

const OF_254_BYTES: [u8; 254] = [b'a'; 254];

const OF_255_BYTES: [u8; 255] = [b'a'; 255];

const LONG: [Row; 3] = [
    (&OF_254_BYTES, Ok(0)),
    (&OF_255_BYTES, Ok(1)),
    (&OF_254_BYTES, Ok(0)),
];

// Each two have the same hash.
const AT_THE_SAME_PLACE: [Row; 8] = [
    (b"x33152", Ok(0)),
    (b"x127045", Ok(1)),
    (b"Lcom/foo/Bar;.field[2957]", Ok(2)),
    (b"Lcom/foo/Bar;.field[34541]", Ok(3)),
    (b"x33152", Ok(0)),
    (b"x127045", Ok(1)),
    (b"Lcom/foo/Bar;.field[2957]", Ok(2)),
    (b"Lcom/foo/Bar;.field[34541]", Ok(3)),
];

const TABLES: [Table; 4] = [
    (2, &FEW, 2),
    (0, &NONE, 0),
    (9, &LONG, 2),
    (4, &AT_THE_SAME_PLACE, 4),
];

#[test]
fn names_are_numbered_in_order_of_first_appearance_up_to_a_limit(rt: HostRuntime) {
    assert_eq!(rt; first_misnumbered(rt.alloc(), &TABLES), None);
}

const FACTOR: u64 = 17_378_887_893_183_147_461;

// A step of the hash of names.
fn mixed(hash: u64, word: u64) -> u64 {
    (hash.rotate_left(5) ^ word).wrapping_mul(FACTOR)
}

// The word behind which the hash of the bytes so far is 0.
fn completing(hash: u64) -> u64 {
    hash.rotate_left(5)
}

// The name with this number among those of 16 bytes that have one hash.
fn name_of_two_words(number: u32) -> [u8; 16] {
    let first = 7_000_000_000 + number as u64;
    let last = completing(mixed(16, first));
    (first as u128 | (last as u128) << 64).to_le_bytes()
}

// The same of 32 bytes, which have no key. The hash is of the last 24 alone.
fn name_of_four_words(number: u32) -> [u8; 32] {
    let first = 7_000_000_000 + number as u64;
    let middle = 7_000_000_000;
    let last = completing(mixed(mixed(32, middle), middle));
    let mut name = [0; 32];
    name[..8].copy_from_slice(&first.to_le_bytes());
    name[8..16].copy_from_slice(&middle.to_le_bytes());
    name[16..24].copy_from_slice(&middle.to_le_bytes());
    name[24..].copy_from_slice(&last.to_le_bytes());
    name
}

// Whether so many names of one hash, of both kinds in turn, have their places as numbers.
fn are_numbered_at_one_place(names: &mut Names, count: u32) -> bool {
    let mut fits = true;
    for number in 0..count {
        let even = number.saturating_mul(2);
        fits &= names.number_of_bytes(&name_of_two_words(number)) == Ok(even);
        fits &= names.number_of_bytes(&name_of_four_words(number)) == Ok(even.saturating_add(1));
    }
    fits
}

// The same for the first time and again, and then with other names behind them. As many are listed.
fn do_names_of_one_hash_keep_their_numbers(alloc: Global, count: u32) -> bool {
    let all = count.saturating_mul(2);
    let mut names = Names::new(alloc, all.saturating_add(1));
    are_numbered_at_one_place(&mut names, count)
        && are_numbered_at_one_place(&mut names, count)
        && names.number_of_bytes(b"x") == Ok(all)
        && names.number_of_bytes(b"y") == Err(NamesFault::Full)
        && are_numbered_at_one_place(&mut names, count)
        && names.into_list().len() == all.saturating_add(1)
}

// Up to a few of them are found along their chain, and more of them by their second hash.
#[test]
fn names_of_one_hash_keep_their_numbers(rt: HostRuntime) {
    assert!(rt; do_names_of_one_hash_keep_their_numbers(rt.alloc(), 10));
    assert!(rt; do_names_of_one_hash_keep_their_numbers(rt.alloc(), 400));
}

fn tells<F: Display + Drop>(alloc: Global, fault: F, wanted: &str) -> bool {
    match fault.to_string(alloc) {
        Ok(text) => text.as_str() == wanted,
        Err(_) => false,
    }
}

#[test]
fn the_faults_tell_themselves(rt: HostRuntime) {
    let alloc = rt.alloc();
    assert!(rt;
        tells(alloc, NamesFault::Full, "too many different names")
            && tells(alloc, NamesFault::Memory, "out of memory")
            && tells(alloc, LineFault::UnknownOperation, "no such operation")
            && tells(
                alloc,
                ShapeFault::LockNotHeld,
                "the thread doesn't hold the lock"
            )
    );
}
