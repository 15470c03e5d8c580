use aero_model::{Counting, Except, Limits, Name, NameFault, SharedExcept, Terms};
use std::alloc::Global;
use std::io;
use std::io::{Read, Write};

// The helpers below say that a row doesn't hold where memory is refused.

// Bytes, and the fault that they have as a name. Without one they are read as a name of the same bytes.
type NameRow = (&'static [u8], Option<NameFault>);

fn is_read_so(alloc: Global, bytes: &[u8], wanted: Option<NameFault>) -> bool {
    match Name::read(alloc, bytes) {
        Err(fault) => wanted == Some(fault),
        Ok(name) => wanted.is_none() && name.bytes() == bytes,
    }
}

// The first row that doesn't hold.
fn first_misread(alloc: Global, rows: &[NameRow]) -> Option<usize> {
    rows.iter().position(|row| !is_read_so(alloc, row.0, row.1))
}

// The first length from 1 to 255 of which a name isn't read.
fn first_length_misread(alloc: Global, letters: &[u8; 256]) -> Option<usize> {
    for length in 1..=255usize {
        if !is_read_so(alloc, &letters[..length], None) {
            return Some(length);
        }
    }
    None
}

const LETTERS: [u8; 256] = [b'a'; 256];

static NAMES: [NameRow; 8] = [
    (b"", Some(NameFault::Empty)),
    (&LETTERS, Some(NameFault::TooLong)),
    (&[0u8; 256], Some(NameFault::TooLong)),
    (b"a|b", Some(NameFault::BadByte)),
    (b"a\x7f", Some(NameFault::BadByte)),
    (b"a\tb", None),
    (b"\xff\x80", None),
    (b"x", None),
];

#[test]
fn a_name_is_its_bytes_or_has_its_first_fault(rt: HostRuntime) {
    let alloc = rt.alloc();
    let misread = (
        first_misread(alloc, &NAMES),
        first_length_misread(alloc, &LETTERS),
    );
    assert!(rt; misread == (None, None));
}

// Whether limits of these four numbers are made.
fn are_made(numbers: [u32; 4]) -> bool {
    Limits::new(numbers[0], numbers[1], numbers[2], numbers[3]).is_some()
}

const MOST: [u32; 4] = [1 << 30, 1 << 28, 65_536, 1 << 26];

// The first of the four numbers that may be 0 or more than the most, if there is one.
fn first_unlimited() -> Option<usize> {
    for at in 0..4usize {
        let mut none = MOST;
        let mut more = MOST;
        none[at] = 0;
        more[at] = MOST[at] + 1;
        if are_made(none) || are_made(more) {
            return Some(at);
        }
    }
    None
}

#[test]
fn limits_are_made_up_to_the_greatest(rt: HostRuntime) {
    let most = Limits::new(MOST[0], MOST[1], MOST[2], MOST[3]);
    assert!(rt; most == Some(Limits::greatest()) && first_unlimited() == None);
}

fn push_label(alloc: Global, labels: &mut Vec<Name>, label: &str) -> Option<()> {
    labels.push(Name::read(alloc, label.as_bytes()).ok()?).ok()
}

// A text's labels, which stand between its spaces. `None` where memory is refused.
fn labels_of(alloc: Global, text: &str) -> Option<Vec<Name>> {
    let mut labels = Vec::new(alloc);
    for label in text.split(' ') {
        if !label.is_empty() {
            push_label(alloc, &mut labels, label)?;
        }
    }
    Some(labels)
}

// The list of a text's labels, which behind `only: ` are those of the only transactions.
pub(crate) fn except_of(alloc: Global, text: &str) -> Option<Except> {
    match text.strip_prefix("only: ") {
        Some(labels) => Except::all_but(labels_of(alloc, labels)?),
        None => Except::new(labels_of(alloc, text)?),
    }
}

// The terms with these limits and labels, where the order and an explanation are asked for or not.
pub(crate) fn terms_of(
    alloc: Global,
    limits: &Limits,
    labels: &str,
    asked: (bool, bool),
) -> Option<Terms> {
    let except = SharedExcept::new(alloc, except_of(alloc, labels)?).ok()?;
    let (order, explain) = asked;
    Some(Terms::new(*limits, except, order, explain))
}

// Whether a list of so many labels is made.
fn is_listed(alloc: Global, count: usize) -> Option<bool> {
    let mut labels = Vec::new(alloc);
    for _ in 0..count {
        push_label(alloc, &mut labels, "f")?;
    }
    Some(Except::new(labels).is_some())
}

#[test]
fn up_to_64_labels_are_listed(rt: HostRuntime) {
    let alloc = rt.alloc();
    let listed = [
        is_listed(alloc, 0),
        is_listed(alloc, 64),
        is_listed(alloc, 65),
    ];
    assert!(rt; listed == [Some(true), Some(true), Some(false)]);
}

// Fails at its first call and at every other one after it, of `read`, `write` and `flush` alike, and
// moves one byte at the calls between.
#[derive(Drop)]
struct FailsInTurn {
    calls: u32,
}

impl FailsInTurn {
    fn call(&mut self) -> io::Result<()> {
        self.calls = self.calls.saturating_add(1);
        if self.calls % 2 == 1 {
            return Err(io::Error::from(io::ErrorKind::Interrupted));
        }
        Ok(())
    }
}

impl Read for FailsInTurn {
    fn read(&mut self, buf: &mut [u8]) -> io::Result<usize> {
        self.call()?;
        Ok(buf.len().min(1))
    }
}

impl Write for FailsInTurn {
    fn write(&mut self, buf: &[u8]) -> io::Result<usize> {
        self.call()?;
        Ok(buf.len().min(1))
    }

    fn flush(&mut self) -> io::Result<()> {
        self.call()
    }
}

// How many calls reach such a stream, each of three kinds made twice, or `None` where one answers
// otherwise than the stream does.
fn calls_in_turn() -> Option<u32> {
    let mut room = [0u8; 2];
    let mut stream = Counting::new(FailsInTurn { calls: 0 });
    let reads = (stream.read(&mut room).is_err(), stream.read(&mut room).ok());
    let writes = (stream.write(b"ab").is_err(), stream.write(b"ab").ok());
    let flushes = (stream.flush().is_err(), stream.flush().is_ok());
    if reads == (true, Some(1)) && writes == (true, Some(1)) && flushes == (true, true) {
        return Some(stream.into_inner().calls);
    }
    None
}

// Whether a read through it gives what the reader gives, and leaves what the reader leaves.
fn is_read_through() -> bool {
    let mut reader = Counting::new(b"abc".as_slice());
    let mut room = [0u8; 2];
    let count = reader.read(&mut room).ok();
    count == Some(2) && room == *b"ab" && reader.into_inner() == b"c".as_slice()
}

// Whether a write through it comes to the writer.
fn is_written_through(alloc: Global) -> bool {
    let mut writer = Counting::new(Vec::new(alloc));
    let count = writer.write(b"ab").ok();
    let is_flushed = writer.flush().is_ok();
    count == Some(2) && is_flushed && writer.into_inner().as_slice() == b"ab".as_slice()
}

#[test]
fn counting_hands_its_calls_on(rt: HostRuntime) {
    let is_handed_on = (is_read_through(), is_written_through(rt.alloc()));
    assert!(rt; is_handed_on == (true, true) && calls_in_turn() == Some(6));
}
