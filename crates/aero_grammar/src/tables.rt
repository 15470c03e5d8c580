// The names and labels of a block's events, each numbered in order of first appearance.
ghost use Rattle.std.specs.Prelude.{◌≡◌, ◌+◌, ◌<◌, ◌≤◌, ℕ, List, length, true, IfOk, OnOk};
ghost use Rattle.aero_model.specs.Named.{stands_alone};
ghost use Rattle.aero_model.specs.Numbering.{Tables as Lists, with_name, what_of};
ghost use Rattle.aero_names.specs.Additions.{number_after};

use crate::words::Words;
use aero_model::{Numbered, Op, What};
use aero_names::{Names, NamesFault};
use std::alloc::{AllocError, Global};

#[derive(Drop)]
pub struct Tables {
    pub threads: Names,
    pub variables: Names,
    pub locks: Names,
    pub labels: Names,
}

impl Tables {
    ghost use Rattle.std.specs.Prelude.{◌≡◌, [], true, is_none, option_copied, Some, IfOk, OnOk};
    ghost use Rattle.aero_model.specs.Named.{stands_alone};
    ghost use Rattle.aero_names.specs.Additions.{with_event, with_target};
    ghost use Rattle.aero_grammar.specs.Words.{named_of, IsEvent};
    ghost use Rattle.aero_grammar.specs.Lists.{lists_in, labels_in, labels_after, what_in_turn, numbered_in_turn, HasRoom, HasGrown};

    // No names yet.
    pub fn new(alloc: Global) -> Tables
        ensures none { lists_in result ≡ record { threads = []; variables = []; locks = [] } }
        ensures unlabelled { labels_in result ≡ [] }
        ensures room { HasRoom result u32.MAX }
    {
        Tables {
            threads: Names::new(alloc, u32::MAX),
            variables: Names::new(alloc, u32::MAX),
            locks: Names::new(alloc, u32::MAX),
            labels: Names::new(alloc, u32::MAX),
        }
    }

    // The event by its numbers, of which new names get the next. The actor comes before the target.
    #[inline(always)]
    pub fn number(&mut self, words: Words<'_>) -> Result<Numbered, AllocError>
        requires event { IsEvent (named_of words) }
        requires room { HasRoom self.old 2 }
        ensures numbered { IfOk result
            (λ numbered. numbered ≡ numbered_in_turn (lists_in self.old) (labels_in self.old)
            (named_of words.entry)) }
        ensures names { OnOk result (lists_in self.new ≡ with_event (lists_in self.old)
            (named_of words.entry)) }
        ensures labels { OnOk result (labels_in self.new ≡ labels_after (labels_in self.old)
            words.entry.op (option_copied words.entry.target)) }
        ensures grown { OnOk result (HasGrown self.old self.new 2) }
    {
        let thread = number_in(&mut self.threads, words.thread)?;
        let what = self.number_target(words.op, words.target)?;
        Ok(Numbered { thread, what })
    }

    // What an event with this operation does, by the number of its target, if it has one.
    #[inline(always)]
    fn number_target(&mut self, op: Op, target: Option<&[u8]>) -> Result<What, AllocError>
        requires alone { is_none target ≡ true → stands_alone op ≡ true }
        requires room { HasRoom self.old 1 }
        ensures what { IfOk result (λ what. what ≡ what_in_turn (lists_in self.old)
            (labels_in self.old) op (option_copied target.entry)) }
        ensures names { OnOk result (lists_in self.new ≡ with_target (lists_in self.old) op
            (option_copied target.entry)) }
        ensures labels { OnOk result (labels_in self.new ≡ labels_after (labels_in self.old) op
            (option_copied target.entry)) }
        ensures grown { OnOk result (HasGrown self.old self.new 1) }
    {
        match target {
            Some(target) => self.number_name(op, target),
            None => Ok(what_alone(op)),
        }
    }

    // The same by the target's name.
    #[inline(always)]
    fn number_name(&mut self, op: Op, target: &[u8]) -> Result<What, AllocError>
        requires { HasRoom self.old 1 }
        ensures what { IfOk result (λ what. what ≡ what_in_turn (lists_in self.old)
            (labels_in self.old) op (Some target.now)) }
        ensures names { OnOk result (lists_in self.new ≡ with_target (lists_in self.old) op
            (Some target.now)) }
        ensures labels { OnOk result (labels_in self.new ≡ labels_after (labels_in self.old) op
            (Some target.now)) }
        ensures grown { OnOk result (HasGrown self.old self.new 1) }
    {
        match op {
            Op::Read => Ok(What::Read(number_in(&mut self.variables, target)?)),
            Op::Write => Ok(What::Write(number_in(&mut self.variables, target)?)),
            Op::Acquire => Ok(What::Acquire(number_in(&mut self.locks, target)?)),
            Op::Release => Ok(What::Release(number_in(&mut self.locks, target)?)),
            Op::Fork => Ok(What::Fork(number_in(&mut self.threads, target)?)),
            Op::Join => Ok(What::Join(number_in(&mut self.threads, target)?)),
            Op::Begin => Ok(What::Begin(Some(number_in(&mut self.labels, target)?))),
            Op::End => Ok(What::End),
        }
    }
}

// What an event without a target does.
#[inline(always)]
fn what_alone(op: Op) -> What
    requires { stands_alone op ≡ true }
    ensures { (lists : Lists) (target : List ℕ) → result ≡ what_of lists op target }
{
    if op == Op::Begin {
        What::Begin(None)
    } else {
        What::End
    }
}

// The number of the name in the list, which a block is too short to fill.
#[inline(always)]
fn number_in(names: &mut Names, name: &[u8]) -> Result<u32, AllocError>
    requires { length names.old.names < names.old.limit }
    ensures number { IfOk result (λ number. number ≡ number_after names.old.names name.now) }
    ensures names { OnOk result (names.new.names ≡ with_name names.old.names name.now) }
    ensures grown { OnOk result (length names.new.names ≤ length names.old.names + 1) }
    ensures limit { OnOk result (names.new.limit ≡ names.old.limit) }
{
    match names.number_of_bytes(name) {
        Ok(number) => Ok(number),
        Err(NamesFault::Memory) => Err(AllocError),
        Err(NamesFault::Full) => unreachable!(),
    }
}
