//! The library for programs in C: a trace is fed in pieces, and judged.
//!
//! A program in C holds a `Holder`, which owns the trace that it is fed. Each export takes the trace out, does one thing
//! to it by `aero_feed`, and puts it back. Where there is none, and where memory was refused, a status says so.
//! `include/aerodrome.h` declares the calls, and tests each pointer before one is made. A program in C hands a `Holder`
//! only as a call left it, or with all bytes 0.
//!
//! # What is proved
//!
//! - A trace is begun where the monitor has none, under the limits and with the labels that are asked for, and nothing is
//!   fed then; where it has one, or labels are refused, it has what it had: `aerodrome_held_begin`,
//!   `aerodrome_held_begin_labelled`, `aerodrome_held_begin_explained`; with what each flag asks for:
//!   `aerodrome_held_begin_with`.
//! - Labels are refused only where one is no name or has no byte 10 behind it, where there are more than 64, or where
//!   memory is refused: `aerodrome_held_begin_labelled`.
//! - A trace has exactly the bytes that it was fed: `aerodrome_held_feed`. That its verdict is certain is told only where it
//!   is: `aerodrome_held_certain`. Memory that was refused stays refused. Where there is no trace a status says so.
//! - Where a violation is to be shown, and is certain, the lines that show it are those of a shortest telling cycle, as the
//!   report has them, and the trace stays: `aerodrome_held_begin_explained`, `aerodrome_held_cycle`.
//! - The verdict is that of exactly the bytes fed, as numbers and as the report's line behind the source's name; where the
//!   buffer is too small it is said how many bytes are needed: `aerodrome_held_verdict`. The monitor has no trace then, nor
//!   after `aerodrome_held_free`.
//! - The memory behind a monitor's pointer is the trace's: `Pointer`, by proofs by hand, and `Loose`.
#![tactic(auto)]

mod beginning;
mod exports;
mod holder;
mod judging;
mod labels;
mod loose;
mod numbers;
mod pointer;
mod status;
