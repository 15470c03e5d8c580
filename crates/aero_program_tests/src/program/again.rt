// A second look at the faulty line of a file that is another by then, or can't be read to its end.
ghost use Rattle.std.specs.Prelude.{⊤};

use crate::program::streams::{EVER, Text, spend};
use crate::program::{SOUND, Wanted, config_of, is_answered};
use aero_program::files::{Opened, Opener};
use aero_program::stamp::{Moment, Stamp};
use std::io;
use std::io::Read;
use std::sync::Wait;
use std::sync::atomic::AtomicU64;
use std::test::Fail;
use std::thread::Threads;

// Plain files that all have one text, behind which so many reads fail when they are opened again. How often a look found a stamp
// or an open gave one tells from when on it is another.
#[derive(Drop)]
struct Changing {
    text: &'static [u8],
    failures: u32,
    stamps_left: AtomicU64,
}

impl Changing {
    // The next stamp: that of a file which was written in the first second, or in the next.
    fn next_stamp(&self) -> Option<Stamp> {
        let second = if spend(&self.stamps_left) { 0 } else { 1 };
        let moment = Moment {
            seconds: second,
            nanoseconds: 0,
        };
        Some(Stamp {
            device: 1,
            inode: 2,
            size: 3,
            written: moment,
            changed: moment,
        })
    }

    fn opened(&self, failures: u32) -> Opened<Text> {
        Opened {
            file: Text {
                left: self.text,
                failures,
            },
            stamp: self.next_stamp(),
        }
    }
}

impl Opener for Changing {
    ghost can_open = { λ _. ⊤ };

    ghost holds = { λ _ _ _. ⊤ };

    type File = Text;

    fn open(&self, _path: &str) -> io::Result<Opened<Text>> {
        Ok(self.opened(0))
    }

    fn read_file(file: &mut Text, buf: &mut [u8]) -> io::Result<usize> {
        file.read(buf)
    }

    fn open_again(&self, _path: &str) -> io::Result<Opened<Text>> {
        Ok(self.opened(self.failures))
    }

    fn look(&self, _path: &str) -> Option<Stamp> {
        self.next_stamp()
    }
}

const HELD: &[u8] = b"T1|acq(l)\nT2|acq(l)\n";

const HELD_REPORT: &[u8] = b"f:2: ill-formed: LockHeldByOther\n\
    traces 1: serializable 0, open 0, violations 0, faults 1\n";

const HELD_WORDS: &[u8] = b"aerodrome: f:2: another thread holds the lock\n";

const HELD_SENTENCE: &[u8] = b"aerodrome: f:2: T2 acquires l, which T1 holds since line 1\n";

const UNKNOWN: &[u8] = b"T1|w(x)\nT1|rd(x)";

const UNKNOWN_REPORT: &[u8] = b"f:2: malformed: UnknownOperation\n\
    traces 1: serializable 0, open 0, violations 0, faults 1\n";

const UNKNOWN_WORDS: &[u8] = b"aerodrome: f:2: no such operation\n";

const UNKNOWN_SENTENCE: &[u8] = b"aerodrome: f:2: no such operation: rd\n";

// How many stamps are alike that a file is found to have, how many reads of it fail when it is opened again, and what is told of
// its fault. The first stamp is found before the run opens it, and the second by that open.
type Row = (u32, u32, &'static [u8]);

// A stamp is asked for before the second look, at each of its opens, and afterwards.
static HELD_ROWS: [Row; 8] = [
    (0, 0, HELD_SENTENCE),
    (1, 0, HELD_SENTENCE),
    (2, 0, HELD_WORDS),
    (3, 0, HELD_WORDS),
    (4, 0, HELD_WORDS),
    (5, 0, HELD_WORDS),
    (6, 0, HELD_SENTENCE),
    (EVER, EVER, HELD_SENTENCE),
];

static UNKNOWN_ROWS: [Row; 7] = [
    (0, 0, UNKNOWN_SENTENCE),
    (1, 0, UNKNOWN_SENTENCE),
    (2, 0, UNKNOWN_WORDS),
    (3, 0, UNKNOWN_WORDS),
    (4, 0, UNKNOWN_WORDS),
    (5, 0, UNKNOWN_SENTENCE),
    (EVER, EVER, UNKNOWN_WORDS),
];

// Whether the fault of a file with this text is told so.
fn is_told<R: AllocGlobal + Threads + Wait + Copy + Drop + Send + Sync + 'static>(
    rt: R,
    text: &'static [u8],
    report: &'static [u8],
    row: &Row,
) -> Result<bool, Fail> {
    let config = config_of(rt.alloc(), Some("f"), false)?;
    let files = Changing {
        text,
        failures: row.1,
        stamps_left: AtomicU64::new(u64::from(row.0)),
    };
    let wanted: Wanted = (report, row.2, 2);
    Ok(is_answered(rt, &files, Ok(config), b"", &SOUND, wanted))
}

// The first row that doesn't hold.
fn first_mistaken<R: AllocGlobal + Threads + Wait + Copy + Drop + Send + Sync + 'static>(
    rt: R,
    text: &'static [u8],
    report: &'static [u8],
    rows: &[Row],
) -> Result<Option<usize>, Fail> {
    for i in 0..rows.len() {
        if !is_told(rt, text, report, &rows[i])? {
            return Ok(Some(i));
        }
    }
    Ok(None)
}

// A sentence is told where the file is the same, before the look, at each of its opens and afterwards, and its line can be read to
// its end. One that was another already when the run opened it is the same ever since.
#[test]
fn a_fault_is_told_in_words_where_the_file_is_another(rt: HostRuntime) -> Result<(), Fail> {
    let held = first_mistaken(rt, HELD, HELD_REPORT, &HELD_ROWS)?;
    let unknown = first_mistaken(rt, UNKNOWN, UNKNOWN_REPORT, &UNKNOWN_ROWS)?;
    assert!(rt; (held, unknown) == (None, None));
    Ok(())
}
