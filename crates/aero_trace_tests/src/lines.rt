use aero_lines::{Block, Cutter};
use std::alloc::Global;

// The helpers below say that a row doesn't hold where memory is refused.

// Whether the block has these bytes, and gives them away.
fn is(block: Option<Block>, wanted: &[u8]) -> bool {
    match block {
        Some(block) => !wanted.is_empty()
            && block.bytes() == wanted
            && block.into_bytes().as_slice() == wanted,
        None => wanted.is_empty(),
    }
}

// Whether the piece gives the block.
fn gives(cutter: &mut Cutter, piece: &[u8], block: &[u8]) -> bool {
    match cutter.feed(piece) {
        Ok(found) => is(found, block),
        Err(_) => false,
    }
}

// Whether the end gives the last block.
fn ends_with(cutter: Cutter, last: &[u8]) -> bool {
    match cutter.finish() {
        Ok(found) => is(found, last),
        Err(_) => false,
    }
}

// Whether each piece gives the block beside it, and the end the last one. No bytes stand for no block.
fn cuts(alloc: Global, pieces: &[&[u8]], blocks: &[&[u8]], last: &[u8]) -> bool {
    let mut cutter = Cutter::new(alloc);
    let mut fits = pieces.len() == blocks.len();
    for (piece, block) in pieces.iter().zip(blocks) {
        fits &= gives(&mut cutter, piece, block);
    }
    fits && ends_with(cutter, last)
}

// Pieces, the block that each gives, and the one that the end gives.
type Row = (
    &'static [&'static [u8]],
    &'static [&'static [u8]],
    &'static [u8],
);

// The first row that doesn't hold.
fn first_wrong(alloc: Global, rows: &[Row]) -> Option<usize> {
    rows.iter()
        .position(|row| !cuts(alloc, row.0, row.1, row.2))
}

// Whether a line of which each piece has one byte comes with the last one, and nothing is left.
fn comes_byte_by_byte(alloc: Global, line: &[u8]) -> bool {
    let mut cutter = Cutter::new(alloc);
    let mut fits = true;
    for at in 1..line.len() {
        fits &= gives(&mut cutter, &line[at - 1..at], b"");
    }
    let last = line.last().copied().unwrap_or(b' ');
    fits && gives(&mut cutter, &[last], line) && ends_with(cutter, b"")
}

// A cutter that was fed nothing gives no block at the end.
static WHOLE_LINES: [Row; 5] = [
    (&[], &[], b""),
    (&[b"ab", b"c\nd"], &[b"", b"abc\n"], b"d"),
    (&[b"a\nb\n"], &[b"a\nb\n"], b""),
    (&[b"", b"\n"], &[b"", b"\n"], b""),
    (&[b"ab\nc"], &[b"ab\n"], b"c"),
];

#[test]
fn blocks_have_all_lines_that_are_whole(rt: HostRuntime) {
    assert_eq!(rt; first_wrong(rt.alloc(), &WHOLE_LINES), None);
}

// Whether the longest lines are cut so, and those that are longer shut the cutter.
fn are_long_lines_cut(alloc: Global, whole: &[u8; 4097]) -> bool {
    let longest = [b'a'; 4096];
    let too_long = [b'a'; 4097];
    let mut begins = [b'a'; 5002];
    begins[0] = b'x';
    begins[1] = b'\n';
    cuts(alloc, &[&begins, b"\ny\n"], &[&begins[..4099], b""], b"")
        && cuts(alloc, &[&longest, b"\n"], &[b"", whole], b"")
        && cuts(alloc, &[&longest, b"a"], &[b"", &too_long], b"")
        && cuts(alloc, &[&longest], &[b""], &longest)
}

#[test]
fn a_line_that_is_too_long_shuts_the_cutter(rt: HostRuntime) {
    let alloc = rt.alloc();
    let mut whole = [b'a'; 4097];
    whole[4096] = b'\n';
    assert!(rt; are_long_lines_cut(alloc, &whole) && comes_byte_by_byte(alloc, &whole));
}
