//! Labels in files, one on each line.
ghost use Rattle.std.specs.Prelude.{◌≡◌, ◌<◌, ◌≤◌, ◌^◌, ◌+◌, ◌++◌, ◌∷◌, ℕ, List, [], None, Some, if◌then◌else◌, IfErr, IfOk, OnOk, false, length, map, option_map, string_bytes, unwrap_or};
ghost use Rattle.std.specs.List.{list_any};
ghost use Rattle.aero_program.specs.declared.label_files.Unlabelled.TheVariants.{Memory};
ghost use Rattle.aero_program.specs.Command.{listed_by};
ghost use Rattle.aero_program.specs.Inputs.{MayFailFrom, bytes_left, standing_of};
ghost use Rattle.aero_program.specs.LabelFiles.{AreListed, AreOfFiles, AreUnlabelled, AreTexts, FailsAt, IsFaultIn, IsFileFault, IsLineFault, IsUnreadFault, is_no_label, is_only, label_on, label_paths, labels_in, labels_in_all, labels_on, own_labels, says_nothing, with_labels};
ghost use Rattle.aero_program.specs.Listing.{IsWhole};

use crate::command::Config;
use crate::files::Opener;
use crate::input::Input;
use crate::reason::Reason;
use aero_grammar::bytes::{first_line, trimmed, without_return};
use aero_model::except::MOST_LABELS_OF_SET;
use aero_model::{Except, Name, NameFault};
use indexmap::IndexSet;
use std::alloc::{AllocError, Global};
use std::io::Read;

// How many bytes one read of a file asks for at most.
const PIECE: usize = 65_536;

/// Why the labels of a file can't be had. In checking order.
#[derive(Clone, Copy, Debug, PartialEq, Eq)]
pub enum Unlabelled {
    /// It couldn't be opened or read, for this reason.
    Unread(Reason),
    /// This line, counted from 1, is no label.
    NoLabel(u64),
    /// With the label on this line there are more than 65,536.
    TooMany(u64),
    /// Memory was refused.
    Memory,
}

impl From<AllocError> for Unlabelled {
    ghost use Rattle.std.specs.Prelude.{◌≡◌};
    ghost use Rattle.aero_program.specs.declared.label_files.Unlabelled.{Unlabelled};
    ghost use Rattle.aero_program.specs.declared.label_files.Unlabelled.TheVariants.{Memory};

    ghost from_gives = { λ _ unlabelled. unlabelled ≡ Memory };

    fn from(_error: AllocError) -> Unlabelled {
        Unlabelled::Memory
    }
}

/// Why there is no list of labels: the file at this path has none. If memory was refused, the path says nothing.
#[derive(Clone, Copy, Debug, PartialEq, Eq)]
pub struct LabelFault<'a> {
    pub path: &'a str,
    pub why: Unlabelled,
}

/// The labels of the options and behind them those of the files, each once. The result is `None` if there are no files.
///
/// # Errors
///
/// The first file that can't be read, or has a line that is no label, or one label too many.
pub fn label_set<'a, F: Opener + Drop>(
    alloc: Global,
    files: &F,
    config: &'a Config,
) -> Result<Option<Except>, LabelFault<'a>>
    ensures listed { IfOk result (λ set. AreListed (F.known files.now) config.entry.now
        (unwrap_or set (listed_by config.entry.now.except.items config.entry.now.only.items))) }
    ensures fault { IfErr result (λ fault. AreUnlabelled (F.known files.now) F.can_fail
        config.entry.now fault.path.now fault.why) }
{
    let paths = label_paths(config);
    if paths.is_empty() {
        return Ok(None);
    }
    set_with_files(alloc, files, config, paths).map(Some)
}

// The labels of the options and behind them those of the files at these paths.
fn set_with_files<'a, F: Opener + Drop>(
    alloc: Global,
    files: &F,
    config: &'a Config,
    paths: &'a [String],
) -> Result<Except, LabelFault<'a>>
    requires { map string_bytes paths.now ≡ label_paths config.now }
    ensures listed { IfOk result (AreOfFiles (F.known files.now) config.entry.now) }
    ensures fault { IfErr result (λ fault. AreUnlabelled (F.known files.now) F.can_fail
        config.entry.now fault.path.now fault.why) }
{
    let Ok(own) = own_set(alloc, own_labels(config)) else {
        return Err(refused());
    };
    match with_files(alloc, files, paths, own) {
        Ok(all) => set_of(all, is_only(config)),
        Err(fault) => Err(fault),
    }
}

// What these labels leave out.
fn set_of<'a>(labels: IndexSet<Name>, only: bool) -> Result<Except, LabelFault<'a>>
    ensures listed { IfOk result (λ except. except ≡ record { labels = labels.keys; only = only }) }
    ensures memory { IfErr result (λ fault. fault.why ≡ Memory) }
{
    match Except::of_set(labels, only) {
        Some(except) => Ok(except),
        None => Err(refused()),
    }
}

// That memory is refused.
fn refused<'a>() -> LabelFault<'a>
    ensures { result.why ≡ Memory }
{
    LabelFault {
        path: "",
        why: Unlabelled::Memory,
    }
}

// The files of labels.
fn label_paths(config: &Config) -> &[String]
    ensures { map string_bytes result.now ≡ label_paths config.now }
{
    if config.only_from.is_empty() {
        &config.except_from
    } else {
        &config.only_from
    }
}

// The labels of options.
fn own_labels(config: &Config) -> &[Name]
    ensures { result.now ≡ own_labels config.now }
{
    if config.only.is_empty() {
        &config.except
    } else {
        &config.only
    }
}

// Whether the labels are those of the only transactions.
fn is_only(config: &Config) -> bool
    ensures { result ≡ is_only config.now }
{
    !config.only.is_empty() || !config.only_from.is_empty()
}

// A set of these labels.
fn own_set(alloc: Global, own: &[Name]) -> Result<IndexSet<Name>, Unlabelled>
    ensures same { IfOk result (λ labels. labels.keys ≡ with_labels [] own.now) }
    ensures few { IfOk result (λ labels. length labels.keys ≤ 2 ^ 16) }
{
    let mut labels = IndexSet::new(alloc);
    for label in own {
        add_label(alloc, label.bytes(), 0, &mut labels)?;
    }
    Ok(labels)
}

// The labels, and behind them those of the files.
fn with_files<'a, F: Opener + Drop>(
    alloc: Global,
    files: &F,
    paths: &'a [String],
    labels: IndexSet<Name>,
) -> Result<IndexSet<Name>, LabelFault<'a>>
    requires { length labels.keys ≤ 2 ^ 16 }
    ensures added { IfOk result (λ all. (texts : List (List ℕ)) ×
        AreTexts (F.known files.now) (map string_bytes paths.entry.now) texts ×
        (all.keys ≡ with_labels labels.keys (labels_in_all texts))) }
    ensures few { IfOk result (λ all. length all.keys ≤ 2 ^ 16) }
    ensures fault { IfErr result (λ fault. FailsAt (F.known files.now) F.can_fail labels.keys
        (map string_bytes paths.entry.now) fault.path.now fault.why) }
{
    let mut labels = labels;
    for path in paths {
        if let Err(why) = add_file(alloc, files, path.as_str(), &mut labels) {
            let path = path.as_str();
            return Err(LabelFault { path, why });
        }
    }
    Ok(labels)
}

// Adds the labels of a file.
fn add_file<F: Opener + Drop>(
    alloc: Global,
    files: &F,
    path: &str,
    labels: &mut IndexSet<Name>,
) -> Result<(), Unlabelled>
    requires { length labels.old.keys ≤ 2 ^ 16 }
    ensures added { OnOk result ((text : List ℕ) × IsWhole (F.known files.now path.now) text ×
        (list_any is_no_label (labels_in text) ≡ false) ×
        (labels.new.keys ≡ with_labels labels.old.keys (labels_in text))) }
    ensures few { OnOk result (length labels.new.keys ≤ 2 ^ 16) }
    ensures fault { IfErr result (IsFileFault (F.known files.now) F.can_fail labels.old.keys
        path.now) }
{
    match text_at(alloc, files, path) {
        Ok(text) => add_lines(alloc, &text, labels),
        Err(why) => Err(why),
    }
}

// The bytes of a file.
fn text_at<F: Opener + Drop>(alloc: Global, files: &F, path: &str) -> Result<Vec<u8>, Unlabelled>
    ensures whole { IfOk result (λ text. IsWhole (F.known files.now path.now) text.items) }
    ensures fault { IfErr result (IsUnreadFault (F.can_fail path.now)) }
{
    let mut input = label_input(alloc, files, path)?;
    let mut buffer = vec![in alloc; 0u8; PIECE]?;
    let mut text = Vec::new(alloc);
    match gather(&mut input, &mut buffer, &mut text) {
        Ok(()) => Ok(text),
        Err(why) => Err(why),
    }
}

// What the file at a path is read by.
fn label_input<'a, F: Opener + Drop>(
    alloc: Global,
    files: &'a F,
    path: &str,
) -> Result<Input<F::File, &'a F>, AllocError>
    ensures bytes { IfOk result (λ input.
        bytes_left (standing_of F.File.remaining (λ f. F.known f.now) F.File.remaining input) ≡
        F.known files.entry.now path.now) }
    ensures failing { IfOk result (λ input.
        MayFailFrom F.can_fail (standing_of F.File.remaining (λ f. F.known f.now) F.File.remaining
        input) → F.can_fail path.now) }
{
    Input::path(alloc, files, path)
}

// Reads until the end, into a buffer of some bytes, and gathers what came.
fn gather<S: Read + Drop, O: Opener + Drop>(
    input: &mut Input<S, O>,
    buffer: &mut [u8],
    text: &mut Vec<u8>,
) -> Result<(), Unlabelled>
    requires some { 0 < length buffer.old }
    requires few { length buffer.old ≤ 2 ^ 20 }
    requires empty { text.old.items ≡ [] }
    ensures whole { OnOk result (IsWhole
        (bytes_left (standing_of S.remaining O.known O.File.remaining input.old)) text.new.items) }
    ensures fault { IfErr result (IsUnreadFault
        (MayFailFrom O.can_fail (standing_of S.remaining O.known O.File.remaining input.old))) }
{
    for _ in 0..u64::MAX {
        let count = match input.read(buffer) {
            Ok(0) => return Ok(()),
            Ok(count) => count,
            Err(error) => return Err(Unlabelled::Unread(Reason::of(&error))),
        };
        text.extend_from_slice(&buffer[..count])?;
    }
    Err(Unlabelled::Memory)
}

// Adds the labels of a text.
fn add_lines(alloc: Global, text: &[u8], labels: &mut IndexSet<Name>) -> Result<(), Unlabelled>
    requires { length labels.old.keys ≤ 2 ^ 16 }
    ensures sound { OnOk result (list_any is_no_label (labels_in text.now) ≡ false) }
    ensures added { OnOk result (labels.new.keys ≡ with_labels labels.old.keys (labels_in text.now)) }
    ensures few { OnOk result (length labels.new.keys ≤ 2 ^ 16) }
    ensures fault { IfErr result (IsFaultIn labels.old.keys text.now) }
{
    let mut rest = text;
    let mut number = 0u64;
    while !rest.is_empty() {
        let (line, behind) = first_line(rest);
        number += 1;
        if let Err(why) = add_line(alloc, line, number, labels) {
            return Err(why);
        }
        rest = behind;
    }
    Ok(())
}

// Adds the label on the line of this number, if it has one.
fn add_line(
    alloc: Global,
    line: &[u8],
    number: u64,
    labels: &mut IndexSet<Name>,
) -> Result<(), Unlabelled>
    requires { length labels.old.keys ≤ 2 ^ 16 }
    ensures sound { OnOk result (list_any is_no_label (labels_on (line.now ∷ [])) ≡ false) }
    ensures added { OnOk result (labels.new.keys ≡
        with_labels labels.old.keys (labels_on (line.now ∷ []))) }
    ensures few { OnOk result (length labels.new.keys ≤ 2 ^ 16) }
    ensures fault { IfErr result (IsLineFault labels.old.keys (labels_on (line.now ∷ [])) number) }
{
    match label_on(line) {
        Some(label) => add_label(alloc, label, number, labels),
        None => Ok(()),
    }
}

// What stands on a line: nothing if it is blank or a comment.
fn label_on(line: &[u8]) -> Option<&[u8]>
    ensures { option_map (λ label. label.now) result ≡ label_on line.now }
{
    said(trimmed(without_return(line)))
}

// What a text says, if it isn't empty or a comment.
fn said(text: &[u8]) -> Option<&[u8]>
    ensures { option_map (λ label. label.now) result ≡
        (if says_nothing text.now then None else Some text.now) }
{
    match text {
        [] | [b'#', ..] => None,
        _ => Some(text),
    }
}

// Adds the label that stands on the line of this number.
fn add_label(
    alloc: Global,
    label: &[u8],
    number: u64,
    labels: &mut IndexSet<Name>,
) -> Result<(), Unlabelled>
    ensures sound { OnOk result (list_any is_no_label (label.now ∷ []) ≡ false) }
    ensures added { OnOk result (labels.new.keys ≡ with_labels labels.old.keys (label.now ∷ [])) }
    ensures few { OnOk result (length labels.new.keys ≤ 2 ^ 16) }
    ensures fault { IfErr result (IsLineFault labels.old.keys (label.now ∷ []) number) }
{
    let name = match Name::read(alloc, label) {
        Ok(name) => name,
        Err(NameFault::Memory) => return Err(Unlabelled::Memory),
        Err(_) => return Err(Unlabelled::NoLabel(number)),
    };
    if labels.insert(name).is_err() {
        return Err(Unlabelled::Memory);
    }
    if labels.len() > MOST_LABELS_OF_SET {
        return Err(Unlabelled::TooMany(number));
    }
    Ok(())
}
