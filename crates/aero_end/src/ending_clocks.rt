//! Clocks as an engine, with the rule of an outermost end.
use crate::end;
use aero_access::Clocks;
use aero_engine::{ByKind, Engine, Spent, by_kind};
use aero_model::Numbered;
use aero_shape::Admitted;
use std::alloc::Global;

/// The clocks of the events so far, whose blocks end by `end`.
#[derive(Drop)]
pub struct EndingClocks {
    clocks: Clocks,
}

impl ByKind for EndingClocks {
    ghost use Rattle.aero_end.specs.Ending.{StandsFor, view_of};

    ghost stands_for = { StandsFor };

    ghost view = { view_of };

    #[inline]
    fn begin(&mut self, t: u32) -> Result<Option<u32>, Spent> {
        self.clocks.begin(t)
    }

    #[inline]
    fn end(&mut self, t: u32) -> Result<Option<u32>, Spent> {
        end(&mut self.clocks, t)
    }

    #[inline]
    fn read(&mut self, t: u32, x: u32) -> Result<Option<u32>, Spent> {
        self.clocks.read(t, x)
    }

    #[inline]
    fn write(&mut self, t: u32, x: u32) -> Result<Option<u32>, Spent> {
        self.clocks.write(t, x)
    }

    #[inline]
    fn acquire(&mut self, t: u32, l: u32) -> Result<Option<u32>, Spent> {
        self.clocks.acquire(t, l)
    }

    #[inline]
    fn release(&mut self, t: u32, l: u32) -> Result<Option<u32>, Spent> {
        self.clocks.release(t, l)
    }

    #[inline]
    fn fork(&mut self, t: u32, u: u32) -> Result<Option<u32>, Spent> {
        self.clocks.fork(t, u)
    }

    #[inline]
    fn join(&mut self, t: u32, u: u32) -> Result<Option<u32>, Spent> {
        self.clocks.join(t, u)
    }

    #[inline]
    fn plain(&mut self, t: u32) -> Result<(), Spent> {
        self.clocks.plain(t)
    }

    ghost agrees = { λ engine h stands.
        record {
          unspent = stands.unspent;
          unclosed = stands.unclosed;
          in_block = stands.state.in_block;
          begins = stands.state.begins;
          acted = stands.state.acted;
        } };
}

impl Engine for EndingClocks {
    ghost use Rattle.std.specs.Prelude.{false};
    ghost use Rattle.aero_engine.specs.Given.{KeepsNone};
    ghost use Rattle.aero_end.specs.Ending.{StandsFor};

    ghost stands_for = { StandsFor };

    ghost keeps = { KeepsNone };

    const ASKS_LABELS: bool = false;

    ghost ASKS_LABELS = { false };

    fn new(alloc: Global) -> EndingClocks {
        EndingClocks {
            clocks: Clocks::new(alloc),
        }
    }

    #[inline]
    fn judge(
        &mut self,
        _line: u32,
        event: &Numbered,
        admitted: Admitted,
        _label: Option<&[u8]>,
    ) -> Result<Option<u32>, Spent> {
        by_kind::judge(self, event, admitted)
    }
}
