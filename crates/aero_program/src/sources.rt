//! The sources that are asked for.
ghost use Rattle.std.specs.Prelude.{◌≡◌, ◌⊎◌, ◌<◌, ◌≤◌, ◌^◌, ◌∷◌, ⊤, length, ℕ, List, [], Some, None, if◌then◌else◌, IfErr, IfOk, OnOk, map, option_map, codes, string_bytes, unwrap_or, vec_len};
ghost use Rattle.std.specs.Str.{is_utf8};
ghost use Rattle.aero_telling.specs.Founds.{sighted};
ghost use Rattle.aero_intake.specs.Source.{Nowhere, Stream};
ghost use Rattle.aero_program.specs.Command.{count_named};
ghost use Rattle.aero_model.specs.CallCounts.{Seen};
ghost use Rattle.aero_program.specs.Inputs.{IsUntouched, MayFailFrom, bytes_left, reason_of, standing_of, unopened, unread, Standard, Failed};
ghost use Rattle.aero_program.specs.Listing.{HasTooMany, IsCutFor, IsLeftByFault, IsLeftByList, IsListFault, IsReadOut, IsUntouchedFor, IsWhole, MayFailListed, list_given, names_in};
ghost use Rattle.aero_program.specs.Retries.{seen_within};
ghost use Rattle.aero_program.specs.Traces.{input_of, sight_of};
ghost use Rattle.aero_program.specs.declared.listing.Unlisted.TheVariants.{Memory, TooMany};
ghost use Rattle.aero_program.specs.declared.reason.Reason.TheVariants.{NotUtf8};
ghost use Rattle.aero_program.specs.Sightings.{AreNames, AreUnlisted, IsLeftBeside, IsLeftUnlisted, file_made, listed_made, listed_reason, listed_standing, made_at, sightings, source_reasons, source_sightings, source_standings};

use crate::command::{MOST_FILES, Sources};
use crate::files::Opener;
use crate::input::Input;
use crate::listing::{Unlisted, first_name, read_list};
use crate::retrying::Retrying;
use crate::traced::Traced;
use aero_intake::SourceOf;
use std::alloc::{AllocError, Global};
use std::io::Read;
use std::str;

/// The sources that are asked for, and standard input as it is left, unless it is the source.
#[derive(Drop)]
pub struct Gathered<S: Read, O: Opener> {
    pub sources: Vec<SourceOf<Traced<S, O>>>,
    pub stdin: Option<Retrying<S>>,
}

/// Why there are no sources, and standard input as it is left, unless memory was refused.
#[derive(Drop)]
pub struct Ungathered<S> {
    pub why: Unlisted,
    pub stdin: Option<Retrying<S>>,
}

impl<S> From<AllocError> for Ungathered<S> {
    ghost use Rattle.std.specs.Prelude.{◌≡◌, None};
    ghost use Rattle.aero_program.specs.declared.sources.Ungathered.{Ungathered};
    ghost use Rattle.aero_program.specs.declared.listing.Unlisted.TheVariants.{Memory};

    ghost from_gives = { λ _ ungathered. ungathered ≡ record { why = Memory; stdin = None } };

    fn from(_error: AllocError) -> Ungathered<S> {
        Ungathered {
            why: Unlisted::Memory,
            stdin: None,
        }
    }
}

/// Standard input, under its name or `-`, or the file of each word, named as it, or of each name in a
/// list, which is read for that. No other file is touched yet, and each is taken for one that may wait, until `look_at_all`
/// has looked at it. A file can't be opened of which a list has a name that isn't UTF-8. Nothing is read of standard
/// input but a list that it has.
///
/// # Errors
///
/// `Unread` and `TooMany` where it is so with the list; `Memory` where memory is refused.
pub fn sources_of<'a, S: Read + Drop, F: Opener + Drop>(
    alloc: Global,
    files: &'a F,
    stdin: S,
    asked: &Sources,
) -> Result<Gathered<S, &'a F>, Ungathered<S>>
    ensures few { count_named asked.now ≤ 2 ^ 16 →
        IfOk result (λ made. vec_len made.sources ≤ 2 ^ 16) }
    ensures names { IfOk result (λ made. AreNames (F.known files.now) asked.now (S.remaining stdin)
        (map (λ s. s.name.items) made.sources.items)) }
    ensures readers { IfOk result (λ made.
        map (λ s. standing_of S.remaining (λ f. F.known f.now) F.File.remaining (input_of s.reader))
        made.sources.items ≡ source_standings (F.known files.now) asked.now (S.remaining stdin)
        (map (λ s. s.name.items) made.sources.items)) }
    ensures reasons { IfOk result (λ made. map (λ s. reason_of (input_of s.reader))
        made.sources.items ≡ source_reasons asked.now (map (λ s. s.name.items) made.sources.items)) }
    ensures sighted { IfOk result (λ made.
        map (sighted (sight_of S.remaining (λ f. F.known f.now) F.File.remaining))
        made.sources.items ≡ source_sightings (F.known files.now) asked.now
        (S.remaining stdin) (map (λ s. s.name.items) made.sources.items)) }
    ensures left { IfOk result (λ made. IsLeftBeside asked.now (S.remaining stdin)
        (option_map (seen_within S.remaining) made.stdin)) }
    ensures unlisted { IfErr result
        (λ un. AreUnlisted (F.known files.now) F.can_fail asked.now (S.remaining stdin) un.why) }
    ensures unlisted_left { IfErr result
        (λ un. IsLeftUnlisted asked.now (S.remaining stdin) un.why
        (option_map (seen_within S.remaining) un.stdin)) }
{
    match asked {
        Sources::Standard(name) => {
            let sources = standard_alone(alloc, stdin, name)?;
            Ok(Gathered {
                sources,
                stdin: None,
            })
        }
        Sources::Files(words) => {
            let sources = files_of(alloc, files, words)?;
            Ok(Gathered {
                sources,
                stdin: Some(untouched(stdin)),
            })
        }
        Sources::Listed(path) => listed_at(alloc, files, stdin, path.as_str()),
    }
}

/// Standard input of which nothing was read.
pub fn untouched<S: Read>(stdin: S) -> Retrying<S>
    ensures { seen_within S.remaining result ≡ unread (S.remaining stdin) }
{
    Retrying::new(stdin)
}

// Standard input alone.
fn standard_alone<'a, S: Read + Drop, F: Opener + Drop>(
    alloc: Global,
    stdin: S,
    name: &Option<String>,
) -> Result<Vec<SourceOf<Traced<S, &'a F>>>, AllocError>
    ensures names { IfOk result (λ sources. map (λ s. s.name.items) sources.items ≡
        unwrap_or (option_map string_bytes name.now) (codes "-") ∷ []) }
    ensures readers { IfOk result (λ sources.
        map (λ s. standing_of S.remaining (λ f. F.known f.now) F.File.remaining (input_of s.reader))
        sources.items ≡ Standard (unread (S.remaining stdin)) ∷ []) }
    ensures reasons { IfOk result (λ sources. map (λ s. reason_of (input_of s.reader))
        sources.items ≡ None ∷ []) }
    ensures sighted { IfOk result (λ sources.
        map (sighted (sight_of S.remaining (λ f. F.known f.now) F.File.remaining)) sources.items ≡
        sightings (λ _. made_at Stream (S.remaining stdin))
        (unwrap_or (option_map string_bytes name.now) (codes "-") ∷ [])) }
    ensures one { IfOk result (λ sources. vec_len sources ≡ 1) }
{
    let source = standard_of(alloc, stdin, name_or_dash(name))?;
    alone(alloc, source)
}

// The name that standard input has in the report.
fn name_or_dash(name: &Option<String>) -> &[u8]
    ensures { result.now ≡ unwrap_or (option_map string_bytes name.now) (codes "-") }
{
    match name {
        Some(name) => name.as_bytes(),
        None => b"-",
    }
}

// One item alone.
fn alone<T: Drop>(alloc: Global, item: T) -> Result<Vec<T>, AllocError>
    ensures item { IfOk result (λ items. items.items ≡ item ∷ []) }
    ensures one { IfOk result (λ items. vec_len items ≡ 1) }
{
    let mut items = Vec::new(alloc);
    items.push(item)?;
    Ok(items)
}

// Standard input of this name.
fn standard_of<'a, S: Read + Drop, F: Opener + Drop>(
    alloc: Global,
    stdin: S,
    name: &[u8],
) -> Result<SourceOf<Traced<S, &'a F>>, AllocError>
    ensures name { IfOk result (λ s. s.name.items ≡ name.now) }
    ensures reader { IfOk result (λ s. standing_of S.remaining (λ f. F.known f.now) F.File.remaining
        (input_of s.reader) ≡ Standard (unread (S.remaining stdin))) }
    ensures reason { IfOk result (λ s. reason_of (input_of s.reader) ≡ None) }
    ensures sighted { IfOk result (λ s.
        sighted (sight_of S.remaining (λ f. F.known f.now) F.File.remaining) s ≡
        record { name = name.now; reader = made_at Stream (S.remaining stdin) }) }
{
    Ok(SourceOf {
        name: Vec::from_slice(alloc, name)?,
        reader: Traced::new(Input::standard(stdin)),
        may_wait: true,
    })
}

// The file of each word, named as its word.
fn files_of<'a, S: Read + Drop, F: Opener + Drop>(
    alloc: Global,
    files: &'a F,
    words: &[String],
) -> Result<Vec<SourceOf<Traced<S, &'a F>>>, AllocError>
    ensures names { IfOk result (λ sources. map (λ s. s.name.items) sources.items ≡
        map string_bytes words.now) }
    ensures readers { IfOk result (λ sources.
        map (λ s. standing_of S.remaining (λ f. F.known f.now) F.File.remaining (input_of s.reader))
        sources.items ≡ map (unopened (F.known files.now)) (map string_bytes words.now)) }
    ensures reasons { IfOk result (λ sources. map (λ s. reason_of (input_of s.reader))
        sources.items ≡ map (λ _. None) (map string_bytes words.now)) }
    ensures sighted { IfOk result (λ sources.
        map (sighted (sight_of S.remaining (λ f. F.known f.now) F.File.remaining)) sources.items ≡
        sightings (file_made (F.known files.now)) (map string_bytes words.now)) }
{
    let mut sources = Vec::new(alloc);
    add_files(alloc, files, words, &mut sources)?;
    Ok(sources)
}

// Adds the file of each word.
fn add_files<'a, S: Read + Drop, F: Opener + Drop>(
    alloc: Global,
    files: &'a F,
    words: &[String],
    sources: &mut Vec<SourceOf<Traced<S, &'a F>>>,
) -> Result<(), AllocError>
    requires { sources.old.items ≡ [] }
    ensures names { OnOk result (map (λ s. s.name.items) sources.new.items ≡
        map string_bytes words.now) }
    ensures readers { OnOk result (map
        (λ s. standing_of S.remaining (λ f. F.known f.now) F.File.remaining (input_of s.reader))
        sources.new.items ≡ map (unopened (F.known files.now)) (map string_bytes words.now)) }
    ensures reasons { OnOk result (map (λ s. reason_of (input_of s.reader)) sources.new.items ≡
        map (λ _. None) (map string_bytes words.now)) }
    ensures sighted { OnOk result (map
        (sighted (sight_of S.remaining (λ f. F.known f.now) F.File.remaining)) sources.new.items ≡
        sightings (file_made (F.known files.now)) (map string_bytes words.now)) }
{
    for word in words {
        let source = file_of(alloc, files, word.as_str())?;
        sources.push(source)?;
    }
    Ok(())
}

// The file at a path, named as it.
fn file_of<'a, S: Read + Drop, F: Opener + Drop>(
    alloc: Global,
    files: &'a F,
    path: &str,
) -> Result<SourceOf<Traced<S, &'a F>>, AllocError>
    ensures name { IfOk result (λ s. s.name.items ≡ path.now) }
    ensures reader { IfOk result (λ s. standing_of S.remaining (λ f. F.known f.now) F.File.remaining
        (input_of s.reader) ≡ unopened (F.known files.now) path.now) }
    ensures reason { IfOk result (λ s. reason_of (input_of s.reader) ≡ None) }
    ensures sighted { IfOk result (λ s.
        sighted (sight_of S.remaining (λ f. F.known f.now) F.File.remaining) s ≡
        record {
          name = path.now;
          reader = file_made (F.known files.now) path.now;
        }) }
{
    Ok(SourceOf {
        name: Vec::from_slice(alloc, path.as_bytes())?,
        reader: Traced::new(Input::path(alloc, files, path)?),
        may_wait: true,
    })
}

// The file of each name in the list at a path, or in standard input where that is `-`.
fn listed_at<'a, S: Read + Drop, F: Opener + Drop>(
    alloc: Global,
    files: &'a F,
    stdin: S,
    path: &str,
) -> Result<Gathered<S, &'a F>, Ungathered<S>>
    ensures few { IfOk result (λ made. vec_len made.sources ≤ 2 ^ 16) }
    ensures names { IfOk result (λ made. (list : List ℕ) ×
        IsWhole (list_given (F.known files.now) path.now (S.remaining stdin)) list ×
        (map (λ s. s.name.items) made.sources.items ≡ names_in list)) }
    ensures readers { IfOk result (λ made.
        map (λ s. standing_of S.remaining (λ f. F.known f.now) F.File.remaining (input_of s.reader))
        made.sources.items ≡ map (listed_standing (F.known files.now))
        (map (λ s. s.name.items) made.sources.items)) }
    ensures reasons { IfOk result (λ made. map (λ s. reason_of (input_of s.reader))
        made.sources.items ≡ map listed_reason (map (λ s. s.name.items) made.sources.items)) }
    ensures sighted { IfOk result (λ made.
        map (sighted (sight_of S.remaining (λ f. F.known f.now) F.File.remaining))
        made.sources.items ≡ sightings (listed_made (F.known files.now))
        (map (λ s. s.name.items) made.sources.items)) }
    ensures left { IfOk result (λ made. IsLeftByList path.now (S.remaining stdin)
        (option_map (seen_within S.remaining) made.stdin)) }
    ensures unlisted { IfErr result
        (λ un. IsListFault (MayFailListed F.can_fail path.now)
        (list_given (F.known files.now) path.now (S.remaining stdin)) un.why) }
    ensures unlisted_left { IfErr result
        (λ un. IsLeftByFault path.now (S.remaining stdin) un.why
        (option_map (seen_within S.remaining) un.stdin)) }
{
    if path == "-" {
        listed_in_stream(alloc, files, stdin)
    } else {
        listed_in_file(alloc, files, stdin, path)
    }
}

// The file of each name in the list that standard input has.
fn listed_in_stream<'a, S: Read + Drop, F: Opener + Drop>(
    alloc: Global,
    files: &'a F,
    stdin: S,
) -> Result<Gathered<S, &'a F>, Ungathered<S>>
    ensures few { IfOk result (λ made. vec_len made.sources ≤ 2 ^ 16) }
    ensures names { IfOk result (λ made. (list : List ℕ) × IsWhole (S.remaining stdin) list ×
        (map (λ s. s.name.items) made.sources.items ≡ names_in list)) }
    ensures readers { IfOk result (λ made.
        map (λ s. standing_of S.remaining (λ f. F.known f.now) F.File.remaining (input_of s.reader))
        made.sources.items ≡ map (listed_standing (F.known files.now))
        (map (λ s. s.name.items) made.sources.items)) }
    ensures reasons { IfOk result (λ made. map (λ s. reason_of (input_of s.reader))
        made.sources.items ≡ map listed_reason (map (λ s. s.name.items) made.sources.items)) }
    ensures sighted { IfOk result (λ made.
        map (sighted (sight_of S.remaining (λ f. F.known f.now) F.File.remaining))
        made.sources.items ≡ sightings (listed_made (F.known files.now))
        (map (λ s. s.name.items) made.sources.items)) }
    ensures left { IfOk result (λ made. IsReadOut (option_map (seen_within S.remaining) made.stdin)) }
    ensures unlisted { IfErr result (λ un. IsListFault ⊤ (S.remaining stdin) un.why) }
    ensures unlisted_left { IfErr result
        (λ un. IsCutFor un.why (option_map (seen_within S.remaining) un.stdin)) }
{
    let mut input: Input<S, &'a F> = Input::standard(stdin);
    let list = read_list(alloc, &mut input);
    let stdin = input.into_standard();
    match list {
        Ok(list) => listed_by(alloc, files, &list, stdin),
        Err(why) => Err(Ungathered { why, stdin }),
    }
}

// The file of each name in the list that a file has.
fn listed_in_file<'a, S: Read + Drop, F: Opener + Drop>(
    alloc: Global,
    files: &'a F,
    stdin: S,
    path: &str,
) -> Result<Gathered<S, &'a F>, Ungathered<S>>
    ensures few { IfOk result (λ made. vec_len made.sources ≤ 2 ^ 16) }
    ensures names { IfOk result (λ made. (list : List ℕ) × IsWhole (F.known files.now path.now)
        list × (map (λ s. s.name.items) made.sources.items ≡ names_in list)) }
    ensures readers { IfOk result (λ made.
        map (λ s. standing_of S.remaining (λ f. F.known f.now) F.File.remaining (input_of s.reader))
        made.sources.items ≡ map (listed_standing (F.known files.now))
        (map (λ s. s.name.items) made.sources.items)) }
    ensures reasons { IfOk result (λ made. map (λ s. reason_of (input_of s.reader))
        made.sources.items ≡ map listed_reason (map (λ s. s.name.items) made.sources.items)) }
    ensures sighted { IfOk result (λ made.
        map (sighted (sight_of S.remaining (λ f. F.known f.now) F.File.remaining))
        made.sources.items ≡ sightings (listed_made (F.known files.now))
        (map (λ s. s.name.items) made.sources.items)) }
    ensures left { IfOk result (λ made. IsUntouched (S.remaining stdin)
        (option_map (seen_within S.remaining) made.stdin)) }
    ensures unlisted { IfErr result
        (λ un. IsListFault (F.can_fail path.now) (F.known files.now path.now) un.why) }
    ensures unlisted_left { IfErr result
        (λ un. IsUntouchedFor un.why (S.remaining stdin)
        (option_map (seen_within S.remaining) un.stdin)) }
{
    let mut input: Input<S, &'a F> = Input::path(alloc, files, path)?;
    let list = read_list(alloc, &mut input);
    let stdin = Some(untouched(stdin));
    match list {
        Ok(list) => listed_by(alloc, files, &list, stdin),
        Err(why) => Err(Ungathered { why, stdin }),
    }
}

// The file of each name in a list, and standard input, which is left so.
fn listed_by<'a, S: Read + Drop, F: Opener + Drop>(
    alloc: Global,
    files: &'a F,
    list: &[u8],
    stdin: Option<Retrying<S>>,
) -> Result<Gathered<S, &'a F>, Ungathered<S>>
    ensures few { IfOk result (λ made. vec_len made.sources ≤ 2 ^ 16) }
    ensures names { IfOk result (λ made. map (λ s. s.name.items) made.sources.items ≡
        names_in list.now) }
    ensures readers { IfOk result (λ made.
        map (λ s. standing_of S.remaining (λ f. F.known f.now) F.File.remaining (input_of s.reader))
        made.sources.items ≡ map (listed_standing (F.known files.now))
        (map (λ s. s.name.items) made.sources.items)) }
    ensures reasons { IfOk result (λ made. map (λ s. reason_of (input_of s.reader))
        made.sources.items ≡ map listed_reason (map (λ s. s.name.items) made.sources.items)) }
    ensures sighted { IfOk result (λ made.
        map (sighted (sight_of S.remaining (λ f. F.known f.now) F.File.remaining))
        made.sources.items ≡ sightings (listed_made (F.known files.now))
        (map (λ s. s.name.items) made.sources.items)) }
    ensures left { IfOk result (λ made. made.stdin ≡ stdin) }
    ensures unlisted { IfErr result
        (λ un. (un.why ≡ Memory) ⊎ ((un.why ≡ TooMany) × (2 ^ 16 < length (names_in list.now)) ×
        (un.stdin ≡ stdin))) }
{
    let sources = listed_in(alloc, files, list)?;
    if sources.len() > MOST_FILES {
        return Err(Ungathered {
            why: Unlisted::TooMany,
            stdin,
        });
    }
    Ok(Gathered { sources, stdin })
}

// The file of each name in a list.
fn listed_in<'a, S: Read + Drop, F: Opener + Drop>(
    alloc: Global,
    files: &'a F,
    list: &[u8],
) -> Result<Vec<SourceOf<Traced<S, &'a F>>>, AllocError>
    ensures names { IfOk result (λ sources. map (λ s. s.name.items) sources.items ≡
        names_in list.now) }
    ensures readers { IfOk result (λ sources.
        map (λ s. standing_of S.remaining (λ f. F.known f.now) F.File.remaining (input_of s.reader))
        sources.items ≡ map (listed_standing (F.known files.now))
        (map (λ s. s.name.items) sources.items)) }
    ensures reasons { IfOk result (λ sources. map (λ s. reason_of (input_of s.reader))
        sources.items ≡ map listed_reason (map (λ s. s.name.items) sources.items)) }
    ensures sighted { IfOk result (λ sources.
        map (sighted (sight_of S.remaining (λ f. F.known f.now) F.File.remaining)) sources.items ≡
        sightings (listed_made (F.known files.now))
        (map (λ s. s.name.items) sources.items)) }
{
    let mut sources = Vec::new(alloc);
    add_listed(alloc, files, list, &mut sources)?;
    Ok(sources)
}

// Adds the file of each name in a list.
fn add_listed<'a, S: Read + Drop, F: Opener + Drop>(
    alloc: Global,
    files: &'a F,
    list: &[u8],
    sources: &mut Vec<SourceOf<Traced<S, &'a F>>>,
) -> Result<(), AllocError>
    requires { sources.old.items ≡ [] }
    ensures names { OnOk result (map (λ s. s.name.items) sources.new.items ≡ names_in list.now) }
    ensures readers { OnOk result (map
        (λ s. standing_of S.remaining (λ f. F.known f.now) F.File.remaining (input_of s.reader))
        sources.new.items ≡ map (listed_standing (F.known files.now))
        (map (λ s. s.name.items) sources.new.items)) }
    ensures reasons { OnOk result (map (λ s. reason_of (input_of s.reader)) sources.new.items ≡
        map listed_reason (map (λ s. s.name.items) sources.new.items)) }
    ensures sighted { OnOk result (map
        (sighted (sight_of S.remaining (λ f. F.known f.now) F.File.remaining)) sources.new.items ≡
        sightings (listed_made (F.known files.now))
        (map (λ s. s.name.items) sources.new.items)) }
{
    let mut rest = list;
    while !rest.is_empty() {
        let (name, behind) = first_name(rest);
        let source = named_of(alloc, files, name)?;
        sources.push(source)?;
        rest = behind;
    }
    Ok(())
}

// The file of a name that stands in a list.
fn named_of<'a, S: Read + Drop, F: Opener + Drop>(
    alloc: Global,
    files: &'a F,
    name: &[u8],
) -> Result<SourceOf<Traced<S, &'a F>>, AllocError>
    ensures name { IfOk result (λ s. s.name.items ≡ name.now) }
    ensures reader { IfOk result (λ s. standing_of S.remaining (λ f. F.known f.now) F.File.remaining
        (input_of s.reader) ≡ listed_standing (F.known files.now) name.now) }
    ensures reason { IfOk result (λ s. reason_of (input_of s.reader) ≡ listed_reason name.now) }
    ensures sighted { IfOk result (λ s.
        sighted (sight_of S.remaining (λ f. F.known f.now) F.File.remaining) s ≡
        record {
          name = name.now;
          reader = listed_made (F.known files.now)
              name.now;
        }) }
{
    let Some(path) = path_of(name) else {
        return unnamed_of(alloc, name);
    };
    file_of(alloc, files, path)
}

// The path that a name is, where it is UTF-8.
fn path_of(name: &[u8]) -> Option<&str>
    ensures { option_map (λ path. path.now) result ≡
        (if is_utf8 name.now then Some name.now else None) }
{
    match str::from_utf8(name) {
        Ok(path) => Some(path),
        Err(_) => None,
    }
}

// A file whose name isn't UTF-8.
fn unnamed_of<'a, S: Read + Drop, F: Opener + Drop>(
    alloc: Global,
    name: &[u8],
) -> Result<SourceOf<Traced<S, &'a F>>, AllocError>
    ensures name { IfOk result (λ s. s.name.items ≡ name.now) }
    ensures reader { IfOk result (λ s. standing_of S.remaining (λ f. F.known f.now) F.File.remaining
        (input_of s.reader) ≡ Failed None) }
    ensures reason { IfOk result (λ s. reason_of (input_of s.reader) ≡ Some NotUtf8) }
    ensures sighted { IfOk result (λ s.
        sighted (sight_of S.remaining (λ f. F.known f.now) F.File.remaining) s ≡
        record { name = name.now; reader = made_at Nowhere None }) }
{
    Ok(SourceOf {
        name: Vec::from_slice(alloc, name)?,
        reader: Traced::new(Input::unnamed()),
        may_wait: false,
    })
}
