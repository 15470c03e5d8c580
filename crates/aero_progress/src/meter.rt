//! What threads share of how far the sources have been read and judged.
use crate::gain::Gain;
use crate::reached::Work;
use std::sync::atomic::{AtomicU64, Ordering};

// What stands in the place of a size that isn't known.
const UNKNOWN: u64 = u64::MAX;

/// How many bytes came, how many sources have been read, how many texts are out, and how much there is to do, where
/// that was told. Once it was, the numbers only rise.
#[derive(Drop)]
pub struct Meter {
    bytes: AtomicU64,
    ended: AtomicU64,
    texts: AtomicU64,
    // How many sources there are, and 0 until that is told.
    sources: AtomicU64,
    size: AtomicU64,
}

impl Meter {
    /// Nothing has been read or told.
    pub fn new() -> Meter {
        Meter {
            bytes: AtomicU64::new(0),
            ended: AtomicU64::new(0),
            texts: AtomicU64::new(0),
            sources: AtomicU64::new(0),
            size: AtomicU64::new(UNKNOWN),
        }
    }

    /// Hears how much there is to do. What was read before is of no source, as the list of their names.
    pub fn begin(&self, work: Work) {
        self.bytes.store(0, Ordering::SeqCst);
        self.ended.store(0, Ordering::SeqCst);
        self.size
            .store(work.size.unwrap_or(UNKNOWN), Ordering::SeqCst);
        self.sources.store(work.sources, Ordering::SeqCst);
    }

    /// How much there is to do; `None` until it was told, or where there is nothing.
    pub fn work(&self) -> Option<Work> {
        let sources = self.sources.load(Ordering::SeqCst);
        if sources == 0 {
            return None;
        }
        let size = self.size.load(Ordering::SeqCst);
        Some(Work {
            sources,
            size: if size == UNKNOWN { None } else { Some(size) },
        })
    }

    /// Adds what one read added.
    pub fn add(&self, gain: Gain) {
        self.bytes.fetch_add(gain.bytes, Ordering::SeqCst);
        if gain.ends {
            self.ended.fetch_add(1, Ordering::SeqCst);
        }
    }

    /// Adds a text that is out.
    pub fn add_text(&self) {
        self.texts.fetch_add(1, Ordering::SeqCst);
    }

    /// How many bytes came.
    pub fn bytes(&self) -> u64 {
        self.bytes.load(Ordering::SeqCst)
    }

    /// How many sources have been read: to their end, or until a read failed.
    pub fn ended(&self) -> u64 {
        self.ended.load(Ordering::SeqCst)
    }

    /// How many texts are out.
    pub fn texts(&self) -> u64 {
        self.texts.load(Ordering::SeqCst)
    }
}
