// Readers and writers that fail, or never end.
use std::io;
use std::io::{Read, Write};

// A reader that fails at one call, once it has given so many bytes, and works again afterwards.
#[derive(Drop)]
pub(crate) struct BreaksOnce<'a> {
    pub(crate) text: &'a [u8],
    pub(crate) left: usize,
    pub(crate) has_failed: bool,
}

impl Read for BreaksOnce<'_> {
    fn read(&mut self, buf: &mut [u8]) -> io::Result<usize> {
        if self.left == 0 && !self.has_failed {
            self.has_failed = true;
            return Err(io::Error::from(io::ErrorKind::Interrupted));
        }
        let most = if self.has_failed {
            buf.len()
        } else {
            buf.len().min(self.left)
        };
        let count = self.text.read(&mut buf[..most])?;
        self.left = self.left.saturating_sub(count);
        Ok(count)
    }
}

// A reader without an end.
#[derive(Drop)]
pub(crate) struct Endless;

impl Read for Endless {
    fn read(&mut self, buf: &mut [u8]) -> io::Result<usize> {
        for byte in buf.iter_mut() {
            *byte = b'a';
        }
        Ok(buf.len())
    }
}

// A reader of a text behind which line after line comes, without an end: each is an event of a thread of its own.
#[derive(Drop)]
pub(crate) struct GoesOn<'a> {
    pub(crate) text: &'a [u8],
}

impl Read for GoesOn<'_> {
    fn read(&mut self, buf: &mut [u8]) -> io::Result<usize> {
        if self.text.is_empty() {
            self.text = b"T3|w(z)\n";
        }
        let count = self.text.len().min(buf.len());
        let (now, later) = self.text.split_at(count);
        buf[..count].copy_from_slice(now);
        self.text = later;
        Ok(count)
    }
}

// A writer that fails at one call, once it has taken so many bytes, and works again afterwards. It notes whether it was
// flushed.
#[derive(Drop)]
pub(crate) struct CutsOnce {
    pub(crate) taken: Vec<u8>,
    pub(crate) left: usize,
    pub(crate) has_failed: bool,
    pub(crate) is_flushed: bool,
}

impl Write for CutsOnce {
    fn write(&mut self, buf: &[u8]) -> io::Result<usize> {
        if self.left == 0 && !self.has_failed {
            self.has_failed = true;
            return Err(io::Error::from(io::ErrorKind::Interrupted));
        }
        let count = if self.has_failed {
            buf.len()
        } else {
            buf.len().min(self.left)
        };
        self.taken.extend_from_slice(&buf[..count])?;
        self.left = self.left.saturating_sub(count);
        Ok(count)
    }

    fn flush(&mut self) -> io::Result<()> {
        self.is_flushed = true;
        Ok(())
    }
}

// A writer that takes one byte a call, so many in all, and from then on fails, or takes nothing.
#[derive(Drop)]
pub(crate) struct TakesBytes {
    pub(crate) taken: Vec<u8>,
    pub(crate) left: usize,
    pub(crate) takes_nothing: bool,
}

impl Write for TakesBytes {
    fn write(&mut self, buf: &[u8]) -> io::Result<usize> {
        if self.left == 0 {
            if self.takes_nothing {
                return Ok(0);
            }
            return Err(io::Error::from(io::ErrorKind::BrokenPipe));
        }
        let count = buf.len().min(1);
        self.taken.extend_from_slice(&buf[..count])?;
        self.left -= count;
        Ok(count)
    }

    fn flush(&mut self) -> io::Result<()> {
        Ok(())
    }
}
