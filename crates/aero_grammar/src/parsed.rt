//! What was read of a block: its tables of names, its events, and its first fault.
use crate::line_event::LineEvent;
use aero_model::LineFault;
use aero_names::NameList;
use std::marker::Model;

/// What a block of lines says, up to its first fault.
///
/// The block has tables of its own for the names of its threads, variables and locks and for the
/// labels of its begins, each in order of first appearance, the actor before the target. No name
/// stands in a table twice, nor one that no event has. Contracts see the events by their names.
#[derive(Drop)]
pub struct Parsed {
    pub threads: NameList,
    pub variables: NameList,
    pub locks: NameList,
    /// The labels of the block's begins: `What::Begin(Some(n))` has the one at place n, and a begin
    /// without a label is `What::Begin(None)`.
    pub labels: NameList,
    /// The events, in the order of their lines, each with its line's number, and by its names'
    /// places in the tables. Lines count from 1 within the block, and the numbers rise, since blank
    /// lines count and have no event.
    pub events: Vec<LineEvent>,
    /// How many lines there are, blank ones with them, or the faulty line's number where there is
    /// a fault.
    pub lines: u32,
    /// The first faulty line's number and its fault. What follows that line isn't read. The fault
    /// is the line's own, neither `TooManyLines` nor `Memory`.
    pub fault: Option<(u32, LineFault)>,
}

impl Model for Parsed {
    ghost use Rattle.aero_grammar.specs.Reading.{Reading, IsReading};
    ghost use Rattle.aero_grammar.specs.Tabled.{lines_in, IsBlock};

    ghost Value = { Reading };

    ghost view = { λ p. record {
      events = lines_in (record { threads = p.threads; variables = p.variables; locks = p.locks }) p.labels p.events.items;
      lines = p.lines;
      fault = p.fault;
    } };

    ghost invariant = { λ p. IsBlock (record { threads = p.threads; variables = p.variables; locks = p.locks }) p.labels p.events.items p.lines p.fault };
}
