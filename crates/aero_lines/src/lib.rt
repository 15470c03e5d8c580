//! Cuts a text that comes in pieces into blocks of whole lines, so that each block can be read by
//! itself. A byte 10 ends a line.
//!
//! A block may hold many lines. Each block but the last ends with a byte 10, and the blocks joined
//! are the text, whatever its pieces were (`laws`). A line has at most 4,096 bytes, its byte 10 not
//! counted: where one is longer, the last block ends with the first 4,097 bytes of it, which shows
//! its reader the fault, and everything behind them is dropped.
//!
//! ```text
//! let mut cutter = Cutter::new(alloc);
//! cutter.feed(b"ab")?;    // None
//! cutter.feed(b"c\nd")?;  // Some block of b"abc\n"
//! cutter.finish()?;       // Some block of b"d"
//! ```
//!
//! # What is proved
//!
//! - A piece gives the block that the definition says, and the cutter then keeps what the definition says. A refused
//!   call changes nothing, and no call is refused once a line was too long: `Cutter::feed`, `block`, `after`,
//!   `refused`, `shut`.
//! - The end gives the last block, and is never refused: `Cutter::finish`, `last`.
//! - A block has at most 4,096 bytes more than its piece, and the last one at most 4,096: `few` of both.
//! - However a text was cut into pieces, the blocks joined are the text, or its front up to the first 4,097 bytes of a
//!   line that is too long. Each block but the last ends a line: `laws::the_blocks_are_the_text`.
#![tactic(auto)]

pub mod cutter;
pub mod laws;
mod scan;

pub use cutter::{Block, Cutter};
