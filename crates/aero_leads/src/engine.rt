//! First places as an engine.
use crate::leads::Leads;
use aero_engine::{ByKind, Engine, Spent, by_kind};
use aero_model::Numbered;
use aero_shape::Admitted;
use std::alloc::Global;

impl ByKind for Leads {
    ghost use Rattle.aero_leads.specs.Standing.{StandsFor, view_of};

    ghost stands_for = { StandsFor };

    ghost view = { view_of };

    #[inline]
    fn begin(&mut self, t: u32) -> Result<Option<u32>, Spent> {
        Leads::begin(self, t)
    }

    #[inline]
    fn end(&mut self, t: u32) -> Result<Option<u32>, Spent> {
        Leads::end(self, t)
    }

    #[inline]
    fn read(&mut self, t: u32, x: u32) -> Result<Option<u32>, Spent> {
        Leads::read(self, t, x)
    }

    #[inline]
    fn write(&mut self, t: u32, x: u32) -> Result<Option<u32>, Spent> {
        Leads::write(self, t, x)
    }

    #[inline]
    fn acquire(&mut self, t: u32, l: u32) -> Result<Option<u32>, Spent> {
        Leads::acquire(self, t, l)
    }

    #[inline]
    fn release(&mut self, t: u32, l: u32) -> Result<Option<u32>, Spent> {
        Leads::release(self, t, l)
    }

    #[inline]
    fn fork(&mut self, t: u32, u: u32) -> Result<Option<u32>, Spent> {
        Leads::fork(self, t, u)
    }

    #[inline]
    fn join(&mut self, t: u32, u: u32) -> Result<Option<u32>, Spent> {
        Leads::join(self, t, u)
    }

    #[inline]
    fn plain(&mut self, t: u32) -> Result<(), Spent> {
        Leads::plain(self, t)
    }

    ghost agrees = { λ engine h stands.
        record {
          unspent = stands.unspent;
          unclosed = stands.unclosed;
          in_block = stands.state.in_block;
          begins = stands.state.begins;
          acted = stands.state.acted;
        } };
}

impl Engine for Leads {
    ghost use Rattle.std.specs.Prelude.{false};
    ghost use Rattle.aero_engine.specs.Given.{KeepsNone};
    ghost use Rattle.aero_leads.specs.Standing.{StandsFor};

    ghost stands_for = { StandsFor };

    ghost keeps = { KeepsNone };

    const ASKS_LABELS: bool = false;

    ghost ASKS_LABELS = { false };

    fn new(alloc: Global) -> Leads {
        Leads::new(alloc)
    }

    #[inline]
    fn judge(
        &mut self,
        _line: u32,
        event: &Numbered,
        admitted: Admitted,
        _label: Option<&[u8]>,
    ) -> Result<Option<u32>, Spent> {
        by_kind::judge(self, event, admitted)
    }
}
