//! On what terms a source is judged.
ghost use Rattle.std.specs.Prelude.{◌≡◌};
ghost use Rattle.aero_model.specs.Terms.{asking};

use crate::except::{Except, SharedExcept};
use crate::limits::Limits;
use std::alloc::AllocError;
use std::marker::Model;

/// The limits of a source, the labels of its blocks that are no transactions, whether blocks that are open end before their
/// thread is joined and at the end of the source, whether its serial order is asked for, where it is serializable, whether
/// what is found of it is to be explained, where it is a violation or has open blocks, and whether it is read no further
/// once its verdict is certain.
#[derive(Drop)]
pub struct Terms {
    limits: Limits,
    except: SharedExcept,
    end: bool,
    order: bool,
    explain: bool,
    stop: bool,
}

impl Model for Terms {
    ghost use Rattle.aero_model.specs.Terms.{Terms as Asked, ruled, on};

    ghost Value = { Asked };

    ghost view = { λ t. record (on (ruled t.limits t.except t.end) t.order t.explain) { stop = t.stop } };
}

impl Terms {
    ghost use Rattle.std.specs.Prelude.{◌≡◌, IfOk, true};

    /// These limits, these labels, and what is asked for. No block ends but by an end, and the source is read to its end.
    pub fn new(limits: Limits, except: SharedExcept, order: bool, explain: bool) -> Terms
        ensures { result ≡ asking limits except order explain }
    {
        Terms {
            limits,
            except,
            end: false,
            order,
            explain,
            stop: false,
        }
    }

    /// From now on blocks that are open end before their thread is joined, and at the end of the source.
    pub fn ask_to_end(&mut self)
        ensures { self.new ≡ record self.old { rules = record self.old.rules { end = true } } }
    {
        self.end = true;
    }

    /// From now on what is found is to be explained.
    pub fn ask_for_explanation(&mut self)
        ensures { self.new ≡ record self.old { explain = true } }
    {
        self.explain = true;
    }

    /// From now on the source is read no further once its verdict is certain.
    pub fn ask_to_stop(&mut self)
        ensures { self.new ≡ record self.old { stop = true } }
    {
        self.stop = true;
    }

    /// The same terms for one more holder. An `AllocError` says that the labels have too many.
    pub fn share(&self) -> Result<Terms, AllocError>
        ensures { IfOk result (λ terms. terms ≡ self.now) }
    {
        Ok(Terms {
            limits: self.limits,
            except: self.except.share()?,
            end: self.end,
            order: self.order,
            explain: self.explain,
            stop: self.stop,
        })
    }

    /// The limits of a source.
    pub fn limits(&self) -> &Limits
        ensures { result.now ≡ self.now.rules.limits }
    {
        &self.limits
    }

    /// The labels of the blocks that are no transactions.
    pub fn except(&self) -> &Except
        ensures { result.now ≡ self.now.rules.labels }
    {
        self.except.get()
    }

    /// The same labels, as a question shares them.
    pub fn shared_except(&self) -> &SharedExcept
        ensures { result.now ≡ self.now.rules.labels }
    {
        &self.except
    }

    /// Whether blocks that are open end before their thread is joined, and at the end of the source.
    pub fn end(&self) -> bool
        ensures { result ≡ self.now.rules.end }
    {
        self.end
    }

    /// Whether the serial order is asked for.
    pub fn order(&self) -> bool
        ensures { result ≡ self.now.order }
    {
        self.order
    }

    /// Whether what is found is to be explained: a violation by the events of a telling cycle, and open blocks by where they
    /// began.
    pub fn explain(&self) -> bool
        ensures { result ≡ self.now.explain }
    {
        self.explain
    }

    /// Whether the source is read no further once its verdict is certain.
    pub fn stop(&self) -> bool
        ensures { result ≡ self.now.stop }
    {
        self.stop
    }
}
