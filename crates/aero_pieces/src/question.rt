//! Questions: what a block says, or what is said of a whole trace.
ghost use Rattle.std.specs.Prelude.{◌≡◌, ◌<◌, ◌≤◌, ◌^◌, ◌↔◌, length, IsNone, IfOk, IfSome};
ghost use Rattle.std.specs.Arc.{arc_value};
ghost use Rattle.std.specs.Vec.{vec_len};

use aero_grammar::Parsed;
use aero_model::{Limits, SharedExcept};
use std::alloc::{AllocError, Global};
use std::marker::Model;
use std::sync::Arc;

/// At most 2^30 bytes.
#[derive(Drop)]
pub struct Bytes {
    bytes: Vec<u8>,
}

impl Model for Bytes {
    ghost use Rattle.std.specs.Prelude.{ℕ, ◌≤◌, ◌^◌, List, length};

    ghost Value = { List ℕ };

    ghost view = { λ b. b.bytes.items };

    ghost invariant = { λ b. length b.bytes.items ≤ 2 ^ 30 };
}

const MOST_BYTES: usize = 1 << 30;

impl Bytes {
    /// These bytes, or `None` where there are more than 2^30 of them.
    pub fn new(bytes: Vec<u8>) -> Option<Bytes>
        ensures bytes { IfSome result (λ kept. kept ≡ bytes.items) }
        ensures too_many { IsNone result ↔ 2 ^ 30 < length bytes.items }
    {
        if bytes.len() > MOST_BYTES {
            return None;
        }
        Some(Bytes { bytes })
    }

    /// The bytes: at most 2^30.
    pub fn get(&self) -> &[u8]
        ensures bytes { result.now ≡ self.now }
        ensures few { length self.now ≤ 2 ^ 30 }
    {
        self.bytes.as_slice()
    }
}

/// What the blocks of a trace say, in their order.
#[derive(Drop)]
pub struct Parts {
    parts: Vec<Parsed>,
}

impl Model for Parts {
    ghost use Rattle.std.specs.Prelude.{List};
    ghost use Rattle.aero_grammar.specs.Reading.{Reading};

    ghost Value = { List Reading };

    ghost view = { λ p. p.parts.items };
}

impl Parts {
    /// These parts, in this order.
    pub fn new(parts: Vec<Parsed>) -> Parts
        ensures { result ≡ parts.items }
    {
        Parts { parts }
    }

    /// The parts, in their order.
    pub fn get(&self) -> &[Parsed]
        ensures { result.now ≡ self.now }
    {
        self.parts.as_slice()
    }
}

/// What is asked about the trace with the number `trace`.
#[derive(Drop)]
pub enum Question {
    /// What does its block with this number say, which has these bytes? Both numbers count from 0.
    Parse {
        trace: u64,
        number: u64,
        bytes: Bytes,
    },
    /// What is the verdict on it under these limits, where its blocks say this, and those that
    /// begin with one of these labels are no transactions? Where `end` is true, blocks that are open end before their
    /// thread is joined and at the end. And, where `order` is true and it is serializable, what is the serial order of
    /// its transactions? And, where `explain` is true and it is a violation, what are the events of a telling cycle that
    /// shows it, of as few transactions as may be?
    Check {
        trace: u64,
        parsed: Parts,
        limits: Limits,
        except: SharedExcept,
        end: bool,
        order: bool,
        explain: bool,
    },
}

impl Question {
    /// The question, so that several can hold it. Where memory is refused it is given up.
    pub fn share(self, alloc: Global) -> Result<Arc<Question, Global>, AllocError>
        ensures { IfOk result (λ shared. arc_value shared ≡ self) }
    {
        Ok(Arc::new(alloc, self)?)
    }
}
