//! The course of a run: what was told of it, how much there is to do, and since when.
ghost use Rattle.std.specs.Prelude.{◌≡◌, ◌≤◌, IfOk, IfSome, OnOk, Some, false};
ghost use Rattle.std.specs.Io.KnownBytes.{Appends};
ghost use Rattle.aero_progress.specs.declared.reached.Reached.{Reached};
ghost use Rattle.aero_progress.specs.Courses.{Tells, TellsOf};

use crate::line::{ProgressLine, text_of};
use crate::meter::Meter;
use crate::reached::{Reached, Work};
use std::alloc::Global;
use std::io;
use std::io::Write;
use std::time::{Clock, Instant};

/// The course of a run, of which a meter is told, also how much there is to do, where that isn't known from the start.
#[derive(Drop)]
pub struct Course {
    meter: Meter,
    work: Option<Work>,
    began: Instant,
}

impl Course {
    /// The run begins now, by this clock.
    ///
    /// # Errors
    ///
    /// Those of the clock.
    pub fn begin(clock: &impl Clock, work: Option<Work>) -> io::Result<Course>
        ensures { IfOk result (λ course. course.work ≡ work) }
    {
        Ok(Course {
            meter: Meter::new(),
            work,
            began: Instant::now(clock)?,
        })
    }

    /// What is to be told of reads and of texts.
    pub fn meter(&self) -> &Meter {
        &self.meter
    }

    /// How much there is to do: what was known from the start, or else what the meter was told, if it was.
    pub fn work(&self) -> Option<Work>
        ensures { IfSome self.now.work (λ work. result ≡ Some work) }
    {
        match self.work {
            Some(work) => Some(work),
            None => self.meter.work(),
        }
    }

    /// How far the run has come. At most so many sources are judged as there are.
    ///
    /// # Errors
    ///
    /// Those of the clock.
    pub fn reached(&self, clock: &impl Clock, work: Work) -> io::Result<Reached>
        ensures { IfOk result (λ reached. reached.judged ≤ work.sources) }
    {
        let seconds = self.began.elapsed(clock)?.as_secs();
        Ok(Reached {
            ended: self.meter.ended(),
            bytes: self.meter.bytes(),
            // The last text is of no source, but of them all.
            judged: self.meter.texts().min(work.sources),
            seconds,
        })
    }

    /// Shows on the line how far the run has come, once it is known how much there is to do.
    ///
    /// # Errors
    ///
    /// Those of the clock and of the writer, and `OutOfMemory` where memory is refused.
    pub fn show<W: Write>(
        &self,
        clock: &impl Clock,
        alloc: Global,
        line: &mut ProgressLine<W>,
    ) -> io::Result<()>
        ensures { line.old.is_over ≡ false →
            OnOk result (TellsOf self.now.work line.old.surface (W.contents line.old.writer)
            (W.contents line.new.writer)) }
    {
        match self.work() {
            Some(work) => self.show_of(work, clock, alloc, line),
            None => Ok(()),
        }
    }

    // Shows on the line how far the run has come, of so much that there is to do.
    fn show_of<W: Write>(
        &self,
        work: Work,
        clock: &impl Clock,
        alloc: Global,
        line: &mut ProgressLine<W>,
    ) -> io::Result<()>
        ensures { line.old.is_over ≡ false →
            OnOk result (Tells line.old.surface work (W.contents line.old.writer)
            (W.contents line.new.writer)) }
    {
        let reached = self.reached(clock, work)?;
        let text = text_of(alloc, line.surface(), work, reached)?;
        line.show(&text)
    }
}
