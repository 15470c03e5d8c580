//! The numbers of a chunk's names in the trace, each looked up at the event that first has it.
ghost use Rattle.std.specs.Prelude.{◌≡◌, ◌<◌, ◌==◌, ◌++◌, ◌∷◌, [], length, map, Some, if◌then◌else◌, IfOk, IfErr, OnOk};
ghost use Rattle.aero_model.specs.Exempt.{leaves_out};
ghost use Rattle.aero_grammar.specs.Tabled.{name_at};
ghost use Rattle.aero_verdict.specs.Known.{AreKnown, AreMarked};
ghost use Rattle.aero_verdict.specs.Naming.{NumbersName, RefusesName};

use aero_model::{Except, ShapeFault, What};
use aero_names::{NameList, Names, NamesFault};
use std::alloc::{AllocError, Global};

// Whether a block is no transaction: of each label of a chunk of lines, where it begins with that, and
// where it begins without one.
#[derive(Drop)]
pub(crate) struct Exemptions {
    pub labels: Vec<bool>,
    pub unlabelled: bool,
}

// The tables of a chunk of lines, and what its begins say by their labels.
#[derive(Clone, Copy)]
pub(crate) struct ChunkNames<'a> {
    pub threads: &'a NameList,
    pub variables: &'a NameList,
    pub locks: &'a NameList,
    pub labels: &'a NameList,
    pub exempt: &'a Exemptions,
}

impl<'a> ChunkNames<'a> {
    ghost use Rattle.std.specs.Prelude.{◌≡◌, option_copied};
    ghost use Rattle.aero_model.specs.Exempt.{label_of};
    ghost use Rattle.aero_grammar.specs.Tabled.{op_of, target_in};
    ghost use Rattle.aero_verdict.specs.Known.{tables_in, is_told_exempt, HasLabel};

    // Whether the operation is the begin of a block that is no transaction.
    #[inline(always)]
    pub(crate) fn is_exempt(self, what: What) -> bool
        ensures { result ≡ is_told_exempt self.entry.exempt.now what }
    {
        match what {
            What::Begin(Some(label)) => self.exempt.labels.get(label as usize) == Some(&true),
            What::Begin(None) => self.exempt.unlabelled,
            _ => false,
        }
    }

    // The label of the begin, if it is one and has a label.
    #[inline(always)]
    pub(crate) fn label(self, what: What) -> Option<&'a [u8]>
        requires { HasLabel self.labels.now what }
        ensures { option_copied result ≡
            label_of (op_of what) (target_in (tables_in self.entry) self.entry.labels.now what) }
    {
        match what {
            What::Begin(Some(label)) => self.labels.name(label),
            _ => None,
        }
    }
}

// What the labels of a chunk of lines say. An `AllocError` says that memory was refused, which is asked
// for where there is a label.
pub(crate) fn told_exemptions(
    alloc: Global,
    labels: &NameList,
    except: &Except,
) -> Result<Exemptions, AllocError>
    ensures { IfOk result (AreMarked except.now labels.now) }
{
    Ok(Exemptions {
        labels: exempt_labels(alloc, labels, except)?,
        unlabelled: except.leaves_out_unlabelled(),
    })
}

// Of each of the labels whether it is that of blocks that are no transactions.
fn exempt_labels(alloc: Global, labels: &NameList, except: &Except) -> Result<Vec<bool>, AllocError>
    ensures { IfOk result (λ exempt. exempt.items ≡
        map (λ label. leaves_out except.now (Some label)) labels.now) }
{
    let mut exempt = Vec::new(alloc);
    for n in 0..labels.len() {
        exempt.push(is_left_out(labels, n, except))?;
    }
    Ok(exempt)
}

// Whether the label with this number is that of blocks that are no transactions.
fn is_left_out(labels: &NameList, n: u32, except: &Except) -> bool
    requires { n < length labels.now }
    ensures { result ≡ leaves_out except.now (Some (name_at labels.now n)) }
{
    match labels.name(n) {
        Some(label) => except.leaves_out(label),
        None => unreachable!(),
    }
}

// The numbers in the trace of the first names of each of the chunk's tables.
#[derive(Drop)]
pub(crate) struct Known {
    pub threads: Vec<u32>,
    pub variables: Vec<u32>,
    pub locks: Vec<u32>,
}

impl Known {
    ghost use Rattle.std.specs.Prelude.{◌≡◌, []};

    // Of no name yet.
    pub(crate) fn new(alloc: Global) -> Known
        ensures threads { result.threads.items ≡ [] }
        ensures variables { result.variables.items ≡ [] }
        ensures locks { result.locks.items ≡ [] }
    {
        Known {
            threads: Vec::new(alloc),
            variables: Vec::new(alloc),
            locks: Vec::new(alloc),
        }
    }
}

// The number in the trace of the name at place `n` of the chunk's table, or the fault `full` where
// it is one too many.
#[inline(always)]
pub(crate) fn number_known(
    names: &mut Names,
    known: &mut Vec<u32>,
    chunk: &NameList,
    n: u32,
    full: ShapeFault,
) -> Result<u32, ShapeFault>
    requires { AreKnown names.old.names chunk.now known.old.items }
    ensures ok { IfOk result (λ number. NumbersName names.old names.new (name_at chunk.now n)
        number) }
    ensures err { IfErr result (λ fault. RefusesName names.old (name_at chunk.now n) full fault) }
    ensures known { OnOk result (AreKnown names.new.names chunk.now known.new.items) }
{
    match known.get(n as usize) {
        Some(number) => Ok(*number),
        None => number_first(names, known, chunk, n, full),
    }
}

// The same at the event that first has the name.
fn number_first(
    names: &mut Names,
    known: &mut Vec<u32>,
    chunk: &NameList,
    n: u32,
    full: ShapeFault,
) -> Result<u32, ShapeFault>
    requires { AreKnown names.old.names chunk.now known.old.items }
    ensures ok { IfOk result (λ number. NumbersName names.old names.new (name_at chunk.now n)
        number) }
    ensures err { IfErr result (λ fault. RefusesName names.old (name_at chunk.now n) full fault) }
    ensures known { OnOk result (AreKnown names.new.names chunk.now known.new.items) }
{
    let Some(name) = chunk.name(n) else {
        // Never reached: `Parsed` keeps that the names of its events stand in its tables.
        return Err(ShapeFault::Memory);
    };
    match number_in(names, name, full) {
        Ok(number) => match note(known, n, number) {
            Ok(()) => Ok(number),
            Err(_) => Err(ShapeFault::Memory),
        },
        Err(fault) => Err(fault),
    }
}

// Puts the number behind the others, where it is that of the next name.
fn note(known: &mut Vec<u32>, n: u32, number: u32) -> Result<(), AllocError>
    ensures { OnOk result (known.new.items ≡
        (if length known.old.items == n then known.old.items ++ number ∷ [] else known.old.items)) }
{
    if known.len() == n as usize {
        known.push(number)?;
    }
    Ok(())
}

// The number of the name in the list, or the fault `full` where it is one too many.
#[inline(always)]
fn number_in(names: &mut Names, name: &[u8], full: ShapeFault) -> Result<u32, ShapeFault>
    ensures ok { IfOk result (λ number. NumbersName names.old names.new name.now number) }
    ensures err { IfErr result (λ fault. RefusesName names.old name.now full fault) }
{
    match names.number_of_bytes(name) {
        Ok(number) => Ok(number),
        Err(NamesFault::Full) => Err(full),
        Err(NamesFault::Memory) => Err(ShapeFault::Memory),
    }
}
