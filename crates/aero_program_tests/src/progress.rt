use crate::program::sound_narrow;
use crate::program::streams::{Interrupted, Narrow, Shelf};
use aero_program::files::{MeteredFiles, Opener};
use aero_progress::beside::Beside;
use aero_progress::course::Course;
use aero_progress::line::{ProgressLine, Surface};
use aero_progress::meter::Meter;
use aero_progress::metered::Metered;
use aero_progress::reached::Work;
use std::io;
use std::io::{ErrorKind, Read, Write};
use std::sync::atomic::{AtomicU64, Ordering};
use std::sync::{Mutex, Wait};
use std::test::Fail;
use std::time::{Clock, Duration};

// A clock that fails.
#[derive(Drop)]
struct Broken;

impl Clock for Broken {
    fn monotonic(&self) -> io::Result<Duration> {
        Err(io::Error::from(ErrorKind::Other))
    }

    fn since_1970(&self) -> io::Result<Duration> {
        self.monotonic()
    }
}

// Where the clock fails there is no course.
#[test]
fn no_run_begins_without_a_clock(rt: HostRuntime) {
    let work = Work {
        sources: 1,
        size: None,
    };
    assert!(rt; Course::begin(&Broken, Some(work)).is_err());
}

// An open that is interrupted is no end, one that fails is; what is read of a file is told.
#[test]
fn files_are_told(rt: HostRuntime) -> Result<(), Fail> {
    let meter = Meter::new();
    let shelf = Shelf::new(b"abc", 1, 1, 0);
    let files = MeteredFiles::new(&shelf, Some(&meter));
    assert!(rt; files.open("a").is_err());
    assert_eq!(rt; meter.ended(), 0);
    assert!(rt; files.open("a").is_err());
    assert_eq!(rt; meter.ended(), 1);
    let mut opened = files.open("a")?;
    let mut buf = [0u8; 8];
    let _ = opened.file.read(&mut buf);
    let _ = opened.file.read(&mut buf);
    assert_eq!(rt; meter.bytes(), 3);
    assert_eq!(rt; meter.ended(), 1);
    Ok(())
}

// A text is out once, also if it takes two writes, or one that is interrupted.
#[test]
fn texts_are_told(rt: HostRuntime) -> Result<(), Fail> {
    let meter = Meter::new();
    let mut narrow = sound_narrow(rt.alloc());
    narrow.room = 9;
    let mut writer = Metered::new(Interrupted::new(narrow, 1), Some(&meter));
    writer.write_all(b"first\n")?;
    writer.write_all(b"second\n")?;
    writer.write_all(b"all\n")?;
    assert_eq!(rt; meter.texts(), 3);
    Ok(())
}

// How often something was written, and how often the line was locked meanwhile.
#[derive(Drop)]
struct Writes {
    all: AtomicU64,
    locked: AtomicU64,
}

// A writer that notes whether the line is locked.
#[derive(Drop)]
struct Watches<'a> {
    line: &'a Mutex<ProgressLine<Narrow>>,
    writes: &'a Writes,
}

impl Write for Watches<'_> {
    fn write(&mut self, buf: &[u8]) -> io::Result<usize> {
        self.writes.all.fetch_add(1, Ordering::SeqCst);
        if self.line.try_lock().is_none() {
            self.writes.locked.fetch_add(1, Ordering::SeqCst);
        }
        Ok(buf.len())
    }

    fn flush(&mut self) -> io::Result<()> {
        Ok(())
    }
}

fn write_twice<R: Wait + Drop>(
    rt: R,
    line: &Mutex<ProgressLine<Narrow>>,
    writes: &Writes,
) -> io::Result<()> {
    let mut beside = Beside::new(rt, Watches { line, writes }, Some(line));
    beside.write_all(b"report\n")?;
    beside.write_all(b"more\n")
}

// No tick can show the line between what clears it and what is written then: it is locked until that is written.
#[test]
fn a_line_is_locked_while_something_is_written_beside_it(rt: HostRuntime) -> Result<(), Fail> {
    let line = Mutex::new(ProgressLine::new(sound_narrow(rt.alloc()), Surface::Other));
    let writes = Writes {
        all: AtomicU64::new(0),
        locked: AtomicU64::new(0),
    };
    write_twice(rt, &line, &writes)?;
    assert_eq!(rt; writes.all.load(Ordering::SeqCst), 2);
    assert_eq!(rt; writes.locked.load(Ordering::SeqCst), 2);
    assert!(rt; line.try_lock().is_some());
    Ok(())
}
