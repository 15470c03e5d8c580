//! The end of a block, over the clocks of a logged execution.
//!
//! When the outermost block of a thread ends, all of its events are one step. So what the block
//! leads to comes after all that leads to the block: each thread, and each last write, read and
//! release, whose clock counts the block takes the clock of the block's thread. Where another
//! thread's clock counts it, and that thread has an open block that leads back to the block that
//! ends, there is a telling cycle through the open block, and its thread is returned. Where there are
//! several, the least is.
//!
//! ```text
//! let mut clocks = Clocks::new(alloc);
//! clocks.begin(0)?;
//! clocks.begin(1)?;
//! clocks.write(1, 1)?;
//! clocks.write(0, 0)?;
//! clocks.read(1, 0)?;
//! clocks.read(0, 1)?;
//! assert_eq!(rt; end(&mut clocks, 0), Ok(Some(1)));
//! ```
//!
//! # What is proved
//!
//! - After an outermost end a thread is returned exactly where the end closes the first telling cycle. It is the
//!   opener: of several such threads the least. Where none is returned, the clocks stand for the longer trace: `end`,
//!   `follows`.
//! - After a thread was returned, and after a refused call, the tests of the clocks return what they did. After a refusal
//!   each later call refuses: `end`, `answers`.
//! - What the block leads to takes the clock of its thread, the threads first, up to one whose block closes: `spread`
//!   (private), `named` and `spreads`.
#![tactic(auto)]

ghost use Rattle.std.specs.Prelude.{◌≡◌, ◌++◌, ◌∷◌, [], ℕ, true, None, Some, List, length, IfOk, OnErr};
ghost use Rattle.aero_model.specs.declared.numbered.Numbered.{Numbered};
ghost use Rattle.aero_model.specs.declared.numbered.What.TheVariants.{End};
ghost use Rattle.aero_model.specs.Blocks.{closes};
ghost use Rattle.aero_model.specs.Shape.{IsWellFormed};
ghost use Rattle.aero_engine.specs.Events.{event};
ghost use Rattle.aero_access.specs.Standing.{in_block_at, closed_by, threads_of, StandsFor, HaveSameTests, Answers, Tells};
ghost use Rattle.aero_end.specs.Ends.{IsFirst, SpreadsToAll, IsRefused};

pub mod ending_clocks;

use aero_access::Clocks;
use aero_engine::Spent;
pub use ending_clocks::EndingClocks;

/// Ends the outermost block of thread `t`, which is in a block. Returns the least thread whose
/// open block closes a telling cycle through the block that ends, and `None` where there is none:
/// then thread `t` is in no block any more. A cycle is a telling one where each of its blocks but the
/// first has ended, or is left by no earlier event than it was entered by; so `None` doesn't say that
/// there is no cycle.
///
/// Returns `Spent` where memory was refused, now or before, and each later call that can does so
/// too. After that, and after a thread was returned, the tests return what they did before the call.
pub fn end(clocks: &mut Clocks, t: u32) -> Result<Option<u32>, Spent>
    requires inside { in_block_at clocks.old t ≡ true }
    requires closed { closed_by clocks.old ≡ None }
    ensures answers { Answers clocks.old clocks.new result }
    ensures follows { (h : List Numbered) → StandsFor clocks.old h →
        IsWellFormed (h ++ event t End ∷ []) → closes (h ++ event t End ∷ []) t (length h) ≡ true →
        IfOk result (Tells clocks.new (h ++ event t End ∷ []) (length h)) }
    ensures threads { threads_of clocks.new ≡ threads_of clocks.old }
{
    let closing = spread(clocks, t)?;
    if closing.is_some() {
        return Ok(closing);
    }
    clocks.close_block(t);
    // Clocks whose memory was refused close no block.
    if clocks.in_block(t) {
        return Err(Spent);
    }
    Ok(None)
}

// Each slot whose clock is at least the begin clock of thread `t` takes the clock of `t`, threads
// first and in order of number, up to a thread whose open block closes: that one is returned. The
// slots are listed, and the list stays while they take the clock.
fn spread(clocks: &mut Clocks, t: u32) -> Result<Option<u32>, Spent>
    requires inside { in_block_at clocks.old t ≡ true }
    requires closed { closed_by clocks.old ≡ None }
    ensures tests { HaveSameTests clocks.old clocks.new }
    ensures named { IfOk result (λ o. (u : ℕ) → o ≡ Some u → IsFirst clocks.old clocks.new t u) }
    ensures spreads { IfOk result (λ o. o ≡ None → SpreadsToAll clocks.old clocks.new t) }
    ensures refused { OnErr result (IsRefused clocks.old clocks.new) }
    ensures threads { threads_of clocks.new ≡ threads_of clocks.old }
{
    let listed = clocks.led(t);
    for i in 0..listed {
        let slot = clocks.led_slot(t, i);
        if slot == t as usize {
            continue;
        }
        let closing = clocks.absorb(t, slot)?;
        if closing.is_some() {
            return Ok(closing);
        }
    }
    Ok(None)
}
