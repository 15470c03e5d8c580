//! The thread that writes the line.
use crate::course::Course;
use crate::line::ProgressLine;
use crate::meter::Meter;
use crate::reached::Work;
use std::alloc::Global;
use std::io::Write;
use std::sync::{Arc, Condvar, Mutex, Wait};
use std::thread;
use std::thread::{JoinHandle, Threads};
use std::time::{Clock, Duration};

/// When the line is written, in milliseconds: first after `first_after`, and then each `tick`.
#[derive(Clone, Copy, Debug, PartialEq, Eq)]
pub struct Pace {
    pub first_after: u64,
    pub tick: u64,
}

/// A thread that writes the line on progress.
pub struct Ticker<W> {
    shared: Arc<Shared<W>>,
    thread: JoinHandle<()>,
}

// What the thread shares with who started it.
#[derive(Drop)]
struct Shared<W> {
    course: Course,
    line: Mutex<ProgressLine<W>>,
    // Told when the line is over.
    ended: Condvar,
}

impl<W: Write + Drop + Send + 'static> Ticker<W> {
    /// Starts the thread, which shows on the line how far this work has come since now, or, where it isn't known yet, that
    /// of which the meter is told. `None` where memory, the thread or the time is refused.
    pub fn start<R: Threads + Wait + Clock + Copy + Send + 'static>(
        rt: R,
        alloc: Global,
        line: ProgressLine<W>,
        work: Option<Work>,
        pace: Pace,
    ) -> Option<Ticker<W>> {
        let shared = Shared {
            course: Course::begin(&rt, work).ok()?,
            line: Mutex::new(line),
            ended: Condvar::new(),
        };
        let shared = Arc::new(alloc, shared).ok()?;
        let theirs = Arc::try_clone(&shared).ok()?;
        let thread = thread::spawn(&rt, move || tick_on(&rt, alloc, &*theirs, pace)).ok()?;
        Some(Ticker { shared, thread })
    }

    /// What is to be told of reads and of texts.
    pub fn meter(&self) -> &Meter {
        self.shared.course.meter()
    }

    /// The line, for a `Beside`.
    pub fn line(&self) -> &Mutex<ProgressLine<W>> {
        &self.shared.line
    }

    /// Clears the line, and ends the thread.
    pub fn stop<R: Threads + Wait>(self, rt: &R) {
        let Ticker { shared, thread } = self;
        let _ = shared.line.lock(rt).end();
        shared.ended.notify_all();
        thread.join(rt);
    }
}

// Shows the line at each tick, until it is over. Where that fails, it waits for the next one.
fn tick_on<W: Write, R: Wait + Clock>(rt: &R, alloc: Global, shared: &Shared<W>, pace: Pace) {
    let mut line = shared.line.lock(rt);
    let mut left = Duration::from_millis(pace.first_after);
    for _ in rt.forever() {
        if line.is_over() {
            return;
        }
        line = shared.ended.wait_timeout(rt, line, left).0;
        let _ = shared.course.show(rt, alloc, &mut *line);
        left = Duration::from_millis(pace.tick);
    }
}
