//! A run over many sources: each is read and judged, and the report is written.
//!
//! `run` reads the sources one after the other. Each is cut into chunks of whole lines, as often as 262,144
//! bytes of it have come, and a crew of workers reads the chunks and finds the verdicts. The lines of the
//! report stand in the order of the sources, and each says what the definitions say of the bytes that were
//! read, whatever the pieces, the number of workers and the order of their answers: `specs/Founds.antt` of
//! aero_telling has it in full.
//! `run_over` is the same with any helpers, of whom nothing is promised but how many they are. `run_lines` and
//! `run_lines_over` write the lines alone, and `told::sum_up` a summary behind them.
//!
//! How a source is read, and what is known of it, is aero_intake's: its `plan` and its `source` are
//! those of a run.
//!
//! ```text
//! let no_labels = Except::new(Vec::new(alloc)).ok_or("too many labels")?;
//! let except = SharedExcept::new(alloc, no_labels)?;
//! let plan = Plan::new(4, 65_536, Limits::greatest(), except, false).ok_or("no such plan")?;
//! let reader = Counting::new(b"T1|begin\nT1|w(x)\nT1|end\n".as_slice());
//! let mut sources = [Source { name: b"a".to_vec(alloc)?, reader, may_wait: false }];
//! let mut writer = Counting::new(Vec::new(alloc));
//! let gate = Arc::new(alloc, NoGate)?;
//! let outcome = run(rt, alloc, &mut sources, &mut writer, &plan, gate);
//! // a: serializable (3 events, 1 blocks)
//! // traces 1: serializable 1, open 0, violations 0, faults 0
//! ```
//!
//! # What is proved
//!
//! - The headline. For every list of sources, every cutting of their bytes, every number of workers and every order of
//!   answers, a run without refusal writes the report of what was read. It is the clause `ran` of `run` and of
//!   `run_over`, over `WasRun`.
//! - That is the first malformed line or ill-formed event with its cause, or a violation with its opening block, or
//!   else the counts. A violation is reported at exactly the first event up to which the transaction graph has a
//!   telling cycle: `ran`.
//! - Where an order is asked for, the line of a serializable trace has its transactions under it: `ran`.
//! - Where violations are to be explained, the line of each has the events of a telling cycle under it, which begins in
//!   the block that the line names and goes through as few transactions as may be: `ran`.
//! - Where the plan asks for it, a source is read no further once its verdict is certain: then whatever could follow has
//!   the same finding. By another plan each source is read to its end, unless a read fails or it is too large: `ran`,
//!   over `IsFinding`.
//! - After a refusal of memory exactly the lines of the first sources stand there. After a failed write a proper part
//!   of the next text follows: `ran`.
//! - It holds of each run that returns, whichever answers come, in whatever order, lost, repeated or forged. Any
//!   `Helpers` may give them, of which a `Crew` is one, or nobody: `run_over`.
//! - Of each label of the list it is told whether a block of a source begins with it, or nothing, if a source wasn't read to
//!   its end or has a malformed line, or the plan stops early: `labels`, over `AreLabelsOf`.
//! - A chunk is asked about only while nothing of its source was passed over, and it isn't told that what was read
//!   decides: `step`, over `GoesOn`. It isn't told while a label of the list is missing, unless the plan stops early. The value of a chunk goes to its source's track, of which as much is kept as the
//!   plan says: `give_value`.
//! - `run_over` says how many helpers it had, and `run` no more than were asked for: `workers`. Answers kept and values
//!   worked out here are no more than the questions, and as many where nothing was refused: `tallied`, `all_settled`.
//!
//! No contract says that `run` or `run_over` returns, when a question is given up, when a source is read no further, or
//! that nothing is flushed: tests show these three.
#![tactic(auto)]

mod checking;
mod gathers;
pub mod helpers;
mod inquiry;
mod kind;
pub mod outcome;
mod reading;
mod replies;
pub mod run;
pub mod setting;
mod standing;
mod step;
mod tell;
mod underway;

pub use aero_intake::{intake, laws, plan, source};
pub use aero_telling::{sum_up, told};
pub use outcome::{Cause, Fault, FaultyLine, Notable, Outcome};
pub use run::{run_in_turn, run_lines, run_lines_over, run_over};
