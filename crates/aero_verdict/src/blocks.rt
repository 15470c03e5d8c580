//! The blocks of a trace: how many have begun and have ended, and where.
ghost use Rattle.std.specs.Prelude.{◌≡◌, ◌<◌, ◌==◌, ℕ, OnOk, if◌then◌else◌, vec_len, slice_index_or};

use aero_shape::Admitted;
use std::alloc::{AllocError, Global};

// The outermost blocks of the events so far.
#[derive(Drop)]
pub(crate) struct Blocks {
    begun: u32,
    ended: u32,
    // By thread number, the line of the thread's latest outermost begin.
    lines: Vec<u32>,
}

impl Blocks {
    ghost use Rattle.std.specs.Prelude.{◌≡◌, ◌-◌, ◌<◌, ◌^◌, ℕ, OnOk};
    ghost use Rattle.aero_verdict.specs.Begun.{begin_line, CountsBlock};

    // No block yet.
    pub(crate) fn new(alloc: Global) -> Blocks
        ensures begun { result.begun ≡ 0 }
        ensures ended { result.ended ≡ 0 }
    {
        Blocks {
            begun: 0,
            ended: 0,
            lines: Vec::new(alloc),
        }
    }

    // How many have begun.
    pub(crate) fn begun(&self) -> u32
        ensures { result ≡ self.now.begun }
    {
        self.begun
    }

    // How many of them have not ended.
    pub(crate) fn pending(&self) -> u32
        ensures { result ≡ self.now.begun - self.now.ended }
    {
        self.begun.saturating_sub(self.ended)
    }

    // The line of the latest outermost begin of thread `t`, or 0 where it has made none.
    pub(crate) fn begin_line(&self, t: u32) -> u32
        ensures { result ≡ begin_line self.now t }
    {
        match self.lines.get(t as usize) {
            Some(line) => *line,
            None => 0,
        }
    }

    // Counts an event of thread `t` on this line.
    #[inline(always)]
    pub(crate) fn count(&mut self, admitted: Admitted, t: u32, line: u32) -> Result<(), AllocError>
        requires begun { self.old.begun < 2 ^ 32 - 1 }
        requires ended { self.old.ended < 2 ^ 32 - 1 }
        ensures { OnOk result (CountsBlock self.old self.new admitted t line) }
    {
        match admitted {
            Admitted::OuterBegin => {
                put(&mut self.lines, t, line)?;
                self.begun += 1;
            }
            Admitted::OuterEnd => self.ended += 1,
            Admitted::Plain { .. } | Admitted::IdleJoin => {}
        }
        Ok(())
    }
}

// Puts the line at the thread's number.
fn put(lines: &mut Vec<u32>, t: u32, line: u32) -> Result<(), AllocError>
    ensures { OnOk result ((u : ℕ) →
        slice_index_or lines.new.items u 0 ≡
        (if t == u then line else slice_index_or lines.old.items u 0)) }
{
    make_room(lines, t)?;
    lines[t as usize] = line;
    Ok(())
}

fn make_room(lines: &mut Vec<u32>, t: u32) -> Result<(), AllocError>
    ensures room { OnOk result (t < vec_len lines.new) }
    ensures same { (u : ℕ) → slice_index_or lines.new.items u 0 ≡ slice_index_or lines.old.items u 0 }
{
    let at = t as usize;
    if at < lines.len() {
        return Ok(());
    }
    lines.resize(at + 1, 0)
}
