// Streams and files of which calls fail, once or for ever, or are interrupted.
ghost use Rattle.std.specs.Prelude.{◌≡◌, Some, ⊤};

use aero_program::files::{Opened, Opener};
use aero_program::stamp::Stamp;
use std::alloc::Global;
use std::io;
use std::io::{ErrorKind, Read, Write};
use std::sync::atomic::{AtomicU64, Ordering};

// More calls than any run makes.
pub(crate) const EVER: u32 = u32::MAX;

// A text, after which so many reads fail, before its end is found.
#[derive(Drop)]
pub(crate) struct Text {
    pub(crate) left: &'static [u8],
    pub(crate) failures: u32,
}

impl Read for Text {
    ghost remaining = { λ text. Some text.left.now };

    fn read(&mut self, buf: &mut [u8]) -> io::Result<usize> {
        if self.left.is_empty() && self.failures > 0 {
            self.failures -= 1;
            return Err(io::Error::from_raw_os_error(5));
        }
        self.left.read(buf)
    }
}

// A writer that takes so many bytes, after which so many writes fail, and then takes all. So many flushes
// fail.
#[derive(Drop)]
pub(crate) struct Narrow {
    pub(crate) taken: Vec<u8>,
    pub(crate) room: usize,
    pub(crate) failures: u32,
    pub(crate) flush_failures: u32,
}

impl Write for Narrow {
    fn write(&mut self, buf: &[u8]) -> io::Result<usize> {
        if self.room == 0 && self.failures > 0 {
            self.failures -= 1;
            return Err(io::Error::from(ErrorKind::StorageFull));
        }
        let count = if self.room == 0 {
            buf.len()
        } else {
            buf.len().min(self.room)
        };
        self.taken.extend_from_slice(&buf[..count])?;
        self.room = self.room.saturating_sub(count);
        Ok(count)
    }

    fn flush(&mut self) -> io::Result<()> {
        if self.flush_failures > 0 {
            self.flush_failures -= 1;
            return Err(io::Error::from(ErrorKind::StorageFull));
        }
        Ok(())
    }
}

// A writer that notes how many bytes it had taken at each flush.
#[derive(Drop)]
pub(crate) struct Flushes {
    pub(crate) taken: Vec<u8>,
    pub(crate) at: Vec<usize>,
}

pub(crate) fn never_flushed(alloc: Global) -> Flushes {
    Flushes {
        taken: Vec::new(alloc),
        at: Vec::new(alloc),
    }
}

impl Write for Flushes {
    fn write(&mut self, buf: &[u8]) -> io::Result<usize> {
        self.taken.extend_from_slice(buf)?;
        Ok(buf.len())
    }

    fn flush(&mut self) -> io::Result<()> {
        self.at.push(self.taken.len())?;
        Ok(())
    }
}

// A reader or a writer of which each call is interrupted so many times before it is heeded.
#[derive(Drop)]
pub(crate) struct Interrupted<T> {
    pub(crate) inner: T,
    times: u32,
    left: u32,
}

impl<T> Interrupted<T> {
    pub(crate) fn new(inner: T, times: u32) -> Interrupted<T>
        ensures { result.inner ≡ inner }
    {
        Interrupted {
            inner,
            times,
            left: times,
        }
    }

    fn interrupt(&mut self) -> io::Result<()>
        ensures { self.new.inner ≡ self.old.inner }
    {
        if self.left == 0 {
            self.left = self.times;
            return Ok(());
        }
        self.left -= 1;
        Err(io::Error::from(ErrorKind::Interrupted))
    }
}

impl<R: Read> Read for Interrupted<R> {
    ghost remaining = { λ reader. R.remaining reader.inner };

    fn read(&mut self, buf: &mut [u8]) -> io::Result<usize> {
        self.interrupt()?;
        self.inner.read(buf)
    }
}

impl<W: Write> Write for Interrupted<W> {
    fn write(&mut self, buf: &[u8]) -> io::Result<usize> {
        self.interrupt()?;
        self.inner.write(buf)
    }

    fn flush(&mut self) -> io::Result<()> {
        self.interrupt()?;
        self.inner.flush()
    }
}

// Files that all have one text, as contracts see, of which so many opens are interrupted and then so many fail. Reads go as
// those of a `Text`, each interrupted as often as the opens were to be. They are no plain files.
#[derive(Drop)]
pub(crate) struct Shelf {
    text: &'static [u8],
    times: u32,
    interruptions: AtomicU64,
    open_failures: AtomicU64,
    read_failures: u32,
}

impl Shelf {
    pub(crate) fn new(
        text: &'static [u8],
        times: u32,
        open_failures: u32,
        read_failures: u32,
    ) -> Shelf {
        Shelf {
            text,
            times,
            interruptions: AtomicU64::new(u64::from(times)),
            open_failures: AtomicU64::new(u64::from(open_failures)),
            read_failures,
        }
    }
}

// One less, unless there is none left; whether there was one.
pub(crate) fn spend(count: &AtomicU64) -> bool {
    let left = count.load(Ordering::SeqCst);
    count.store(left.saturating_sub(1), Ordering::SeqCst);
    left > 0
}

impl Opener for Shelf {
    ghost can_open = { λ _. ⊤ };

    ghost known = { λ shelf _. Some shelf.text.now };

    ghost holds = { λ _ _ _. ⊤ };

    type File = Interrupted<Text>;

    fn open(&self, _path: &str) -> io::Result<Opened<Interrupted<Text>>> {
        if spend(&self.interruptions) {
            return Err(io::Error::from(ErrorKind::Interrupted));
        }
        if spend(&self.open_failures) {
            return Err(io::Error::from_raw_os_error(13));
        }
        let text = Text {
            left: self.text,
            failures: self.read_failures,
        };
        Ok(Opened {
            file: Interrupted::new(text, self.times),
            stamp: None,
        })
    }

    fn read_file(file: &mut Interrupted<Text>, buf: &mut [u8]) -> io::Result<usize> {
        file.read(buf)
    }

    fn open_again(&self, path: &str) -> io::Result<Opened<Interrupted<Text>>> {
        self.open(path)
    }

    fn look(&self, _path: &str) -> Option<Stamp> {
        None
    }
}
