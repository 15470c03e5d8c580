//! The words of the command line, and what they ask for.
ghost use Rattle.std.specs.Prelude.{◌≡◌, ◌<◌, ◌≤◌, ◌++◌, ◌∷◌, ◌&&◌, ◌||◌, ◌^◌, [], IfErr, IfOk, None, OnOk, Some, codes, false, length, map, nat_lt, option_map, pos, string_bytes, true, vec_len};
ghost use Rattle.clap.specs.Words.{all_of, app_of, first_of, found_of, new_rule, one_of, rows_of, rule_of};
ghost use Rattle.clap.specs.declared.builder.value_parser.ValueParser.TheVariants as vp;
ghost use Rattle.std.specs.List.{list_any};
ghost use Rattle.aero_program.specs.Command.{count_named};
ghost use Rattle.aero_words.specs.Labels.{AreRefused, IsTold, is_no_label};
ghost use Rattle.aero_words.specs.Line.{AreAskedFor, AsksFor, form_of, form_told, is_dash, is_told, no_rules, number_told, program, program_with, progress_told, rows_given, texts_told};
ghost use Rattle.aero_words.specs.Words.{IsRead, parser_named, rule_by, rule_of_row};

use crate::help;
use crate::options::{MOST_PIECE, MOST_WORKERS, OPTIONS, OptionRow, Takes};
use aero_model::except::MOST_LABELS;
use aero_model::{Name, NameFault};
pub use aero_program::command::{Config, Form, MOST_FILES, Progress, Refused, Sources, Terminals};
use aero_report::VERSION;
use clap::builder::ValueParser;
use clap::error::ErrorKind;
use clap::{Arg, ArgAction, ArgMatches, Command, Error, value_parser};
use std::alloc::{AllocError, Global};

// The text behind the name that `--version` prints: the version, and the number of the kit's logic in which all is proved,
// as the kit's own command prints it.
const VERSION_AND_LOGIC: &str = "0.1.0\nproved in logic dac8208d650f15bf";

const DEFAULT_WORKERS: u32 = 4;

const DEFAULT_PIECE: u32 = 65_536;

/// Reads the words that follow the program's name.
pub fn settle_words(alloc: Global, words: &[String]) -> Result<Config, Refused>
    ensures { IfOk result (λ config. AsksFor config (rows_given (map string_bytes words.now))) }
{
    let matches = matches_of(alloc, words)?;
    settle(alloc, &matches)
}

fn matches_of<'a>(alloc: Global, words: &'a [String]) -> Result<ArgMatches<'a>, Refused>
    ensures read { IfOk result (λ m. IsRead (found_of m)) }
    ensures rows { IfOk result (λ m. rows_of (found_of m) ≡
        rows_given (map string_bytes words.entry.now)) }
{
    let line = command_line(alloc)?;
    match line.try_get_matches_from(words) {
        Ok(matches) => Ok(matches),
        Err(error) => Err(refusal_of(alloc, &error)),
    }
}

// The command line as its reader knows it.
fn command_line<'a>(alloc: Global) -> Result<Command<'a>, AllocError>
    ensures { IfOk result (λ line. app_of line ≡ program) }
{
    line_with(alloc, &OPTIONS)
}

// The command line with the options of these rows.
fn line_with<'a>(alloc: Global, rows: &[OptionRow]) -> Result<Command<'a>, AllocError>
    ensures { IfOk result (λ line. app_of line ≡ program_with (map rule_of_row rows.now)) }
{
    let mut line = bare_line(alloc);
    for row in rows {
        line = line.arg(option_of(alloc, row))?;
    }
    Ok(line)
}

// The command line without its arguments.
fn bare_line<'a>(alloc: Global) -> Command<'a>
    ensures { app_of result ≡ no_rules }
{
    Command::new(alloc, "aerodrome")
        .no_binary_name(true)
        .version(VERSION)
        .long_version(VERSION_AND_LOGIC)
        .about(help::ABOUT)
        .long_about(help::LONG_ABOUT)
        .after_long_help(help::REPORT)
}

// The option of a row.
fn option_of<'a>(alloc: Global, row: &OptionRow) -> Arg<'a>
    ensures rule { rule_of result ≡ rule_of_row row.now }
    ensures local { result.global ≡ false }
{
    let option = Arg::new(alloc, row.name)
        .help(row.help)
        .long_help(row.long_help);
    taking(option, row.name, row.takes)
}

// A new option with what it takes.
fn taking<'a>(option: Arg<'a>, name: &'static str, takes: Takes) -> Arg<'a>
    requires rule { rule_of option ≡ new_rule name.now }
    requires local { option.global ≡ false }
    ensures rule { rule_of result ≡ rule_by name.entry.now takes }
    ensures local { result.global ≡ false }
{
    match takes {
        Takes::Flag => option
            .long(name)
            .action(ArgAction::SetTrue)
            .value_parser(ValueParser::bool()),
        Takes::Number(most, default) => option
            .long(name)
            .value_name("N")
            .action(ArgAction::Set)
            .value_parser(numbers_to(most))
            .default_value(default),
        Takes::Each(value) => option
            .long(name)
            .value_name(value)
            .action(ArgAction::Append),
        Takes::Once(value) => option.long(name).value_name(value).action(ArgAction::Set),
        Takes::OnceOr(value, default) => option
            .long(name)
            .value_name(value)
            .action(ArgAction::Set)
            .default_value(default),
        Takes::Rest(value) => option
            .value_name(value)
            .action(ArgAction::Append)
            .num_args(0..),
    }
}

// What reads a number from 1 to `most`.
fn numbers_to<'a>(most: u32) -> ValueParser<'a>
    ensures { result ≡ vp.Signed (pos 1) (pos most) }
{
    value_parser!(u32).range(1..=i64::from(most))
}

// Why the words were refused, with the text for it.
fn refusal_of(alloc: Global, error: &Error) -> Refused {
    let kind = error.kind();
    if kind == ErrorKind::OutOfMemory {
        return Refused::Memory;
    }
    match error.to_string(alloc) {
        Err(_) => Refused::Memory,
        Ok(text) => {
            if error.use_stderr() {
                Refused::Usage(text)
            } else {
                Refused::Help(text)
            }
        }
    }
}

fn settle(alloc: Global, matches: &ArgMatches<'_>) -> Result<Config, Refused>
    requires { IsRead (found_of matches.now) }
    ensures { IfOk result (λ config. AsksFor config (rows_of (found_of matches.now))) }
{
    let (order, long) = order_and_long_in(alloc, matches)?;
    let form = form_in(alloc, matches)?;
    let workers = number_in(matches, "workers", MOST_WORKERS, DEFAULT_WORKERS);
    let piece = number_in(matches, "piece", MOST_PIECE, DEFAULT_PIECE);
    let sources = sources_in(alloc, matches)?;
    let (except, only) = labels_in(alloc, matches)?;
    let (except_from, only_from) = label_files_in(alloc, matches, &except, &only)?;
    Ok(Config {
        workers,
        piece,
        files: sources,
        except,
        only,
        except_from,
        only_from,
        order,
        explain: flag_in(matches, "explain"),
        long,
        stop: flag_in(matches, "stop"),
        end: flag_in(matches, "end"),
        fail_open: flag_in(matches, "fail-open"),
        fail_unchecked: flag_in(matches, "fail-unchecked"),
        form,
        terminals: Terminals {
            output: false,
            errors: false,
        },
        progress: progress_in(matches),
    })
}

// The labels of blocks that are no transactions, and those of the only ones that are: not both.
fn labels_in(alloc: Global, matches: &ArgMatches<'_>) -> Result<(Vec<Name>, Vec<Name>), Refused>
    ensures except { IfOk result (λ both. both.0.items ≡
        texts_told (all_of (codes "except") (rows_of (found_of matches.now)))) }
    ensures only { IfOk result (λ both. both.1.items ≡
        texts_told (all_of (codes "only") (rows_of (found_of matches.now)))) }
    ensures few { IfOk result (λ both. (vec_len both.0 ≤ 64) × (vec_len both.1 ≤ 64)) }
    ensures apart { IfOk result (λ both. (nat_lt 0 (vec_len both.0) && nat_lt 0 (vec_len both.1)) ≡
        false) }
{
    let except = matches.get_strs("except").unwrap_or(&[]);
    let only = matches.get_strs("only").unwrap_or(&[]);
    if are_both_given(except, only) {
        return Err(conflict(alloc, help::ONLY_WITH_EXCEPT));
    }
    Ok((labels_of(alloc, except)?, labels_of(alloc, only)?))
}

// The files with more labels of each kind: not of both kinds, and not beside labels of the other kind.
fn label_files_in(
    alloc: Global,
    matches: &ArgMatches<'_>,
    except: &[Name],
    only: &[Name],
) -> Result<(Vec<String>, Vec<String>), Refused>
    requires { (nat_lt 0 (length except.now) && nat_lt 0 (length only.now)) ≡ false }
    ensures except { IfOk result (λ both. map string_bytes both.0.items ≡
        texts_told (all_of (codes "except-from") (rows_of (found_of matches.now)))) }
    ensures only { IfOk result (λ both. map string_bytes both.1.items ≡
        texts_told (all_of (codes "only-from") (rows_of (found_of matches.now)))) }
    ensures except_files { IfOk result
        (λ both. list_any is_dash (texts_told
        (all_of (codes "except-from") (rows_of (found_of matches.now)))) ≡ false) }
    ensures only_files { IfOk result
        (λ both. list_any is_dash (texts_told
        (all_of (codes "only-from") (rows_of (found_of matches.now)))) ≡ false) }
    ensures few { IfOk result (λ both. (vec_len both.0 ≤ 64) × (vec_len both.1 ≤ 64)) }
    ensures apart { IfOk result (λ both.
        ((nat_lt 0 (length except.now) || nat_lt 0 (vec_len both.0)) &&
        (nat_lt 0 (length only.now) || nat_lt 0 (vec_len both.1))) ≡ false) }
{
    let except_from = matches.get_strs("except-from").unwrap_or(&[]);
    let only_from = matches.get_strs("only-from").unwrap_or(&[]);
    if let Some(text) = mixed_text(except, except_from, only, only_from) {
        return Err(conflict(alloc, text));
    }
    Ok((paths_of(alloc, except_from)?, paths_of(alloc, only_from)?))
}

// Why these aren't taken together, where labels or files of both kinds are given, but not labels of both.
fn mixed_text(
    except: &[Name],
    except_from: &[&str],
    only: &[Name],
    only_from: &[&str],
) -> Option<&'static str>
    requires { (nat_lt 0 (length except.now) && nat_lt 0 (length only.now)) ≡ false }
    ensures { result ≡ None → ((nat_lt 0 (length except.now) || nat_lt 0
        (length except_from.now)) && (nat_lt 0 (length only.now) || nat_lt 0
        (length only_from.now))) ≡ false }
{
    if !only.is_empty() && !except_from.is_empty() {
        return Some(help::ONLY_WITH_EXCEPT_FROM);
    }
    if !only_from.is_empty() && !except.is_empty() {
        return Some(help::ONLY_FROM_WITH_EXCEPT);
    }
    if !only_from.is_empty() && !except_from.is_empty() {
        return Some(help::ONLY_FROM_WITH_EXCEPT_FROM);
    }
    None
}

// The paths that the texts are: at most 64, and not standard input.
fn paths_of(alloc: Global, texts: &[&str]) -> Result<Vec<String>, Refused>
    ensures same { IfOk result (λ all. map string_bytes all.items ≡
        map (λ text. text.now) texts.now) }
    ensures files { IfOk result (λ all. list_any is_dash (map (λ text. text.now) texts.now) ≡ false) }
    ensures few { IfOk result (λ all. vec_len all ≤ 64) }
    ensures len { IfOk result (λ all. vec_len all ≡ length texts.now) }
{
    if are_too_many(texts) {
        return Err(conflict(alloc, help::TOO_MANY_LABEL_FILES));
    }
    if has_dash(texts) {
        let error = no_standard_labels(alloc)?;
        return Err(refusal_of(alloc, &error));
    }
    Ok(owned(alloc, texts)?)
}

fn has_dash(texts: &[&str]) -> bool
    ensures { result ≡ list_any (λ text. is_dash text.now) texts.now }
{
    texts.iter().any(|text| *text == "-")
}

// That labels aren't read from standard input.
fn no_standard_labels(alloc: Global) -> Result<Error, AllocError> {
    let mut line = command_line(alloc)?;
    line.error(ErrorKind::InvalidValue, help::NO_STANDARD_LABELS)
}

fn are_both_given(except: &[&str], only: &[&str]) -> bool
    ensures { result ≡ (nat_lt 0 (length except.now) && nat_lt 0 (length only.now)) }
{
    !except.is_empty() && !only.is_empty()
}

// The labels that the texts are, in their order. That one is none is told first, then that there are
// too many, and only then that memory is refused.
fn labels_of(alloc: Global, labels: &[&str]) -> Result<Vec<Name>, Refused>
    ensures same { IfOk result (λ all. all.items ≡ map (λ text. text.now) labels.now) }
    ensures few { IfOk result (λ all. vec_len all ≤ 64) }
    ensures len { IfOk result (λ all. vec_len all ≡ length labels.now) }
    ensures refused { IfErr result (AreRefused (map (λ text. text.now) labels.now)) }
{
    if has_bad_label(alloc, labels) {
        return Err(Refused::BadLabel);
    }
    if are_too_many(labels) {
        return Err(Refused::TooManyLabels);
    }
    match names_of(alloc, labels) {
        Ok(all) => Ok(all),
        Err(_) => Err(Refused::Memory),
    }
}

// Whether a command line may not give so many labels.
fn are_too_many(labels: &[&str]) -> bool
    ensures many { result ≡ true → 64 < length labels.now }
    ensures few { result ≡ false → length labels.now ≤ 64 }
{
    labels.len() > MOST_LABELS
}

// Whether one of the texts is no label, also where memory is refused.
fn has_bad_label(alloc: Global, texts: &[&str]) -> bool
    ensures { result ≡ list_any (λ text. is_no_label text.now) texts.now }
{
    texts.iter().any(|text| is_bad_label(alloc, text))
}

fn is_bad_label(alloc: Global, text: &str) -> bool
    ensures { result ≡ is_no_label text.now }
{
    match Name::read(alloc, text.as_bytes()) {
        Ok(_) | Err(NameFault::Memory) => false,
        Err(_) => true,
    }
}

// The labels that the texts are, in their order, unless memory is refused or one is none.
fn names_of(alloc: Global, texts: &[&str]) -> Result<Vec<Name>, Refused>
    ensures same { IfOk result (λ all. all.items ≡ map (λ text. text.now) texts.now) }
    ensures len { IfOk result (λ all. vec_len all ≡ length texts.now) }
{
    let mut labels = Vec::new(alloc);
    for text in texts {
        push_label(&mut labels, label_of(alloc, text)?)?;
    }
    Ok(labels)
}

fn push_label(labels: &mut Vec<Name>, label: Name) -> Result<(), AllocError>
    ensures { OnOk result (labels.new.items ≡ labels.old.items ++ label ∷ []) }
{
    labels.push(label)?;
    Ok(())
}

/// The label that a text is.
///
/// # Errors
///
/// `BadLabel` where it is none: it has no byte, more than 255, a `|` or a control byte. `Memory`
/// where it is one of more than 16 bytes, and memory is refused.
pub fn label_of(alloc: Global, text: &str) -> Result<Name, Refused>
    ensures { IsTold result text.now }
{
    match Name::read(alloc, text.as_bytes()) {
        Ok(label) => Ok(label),
        Err(NameFault::Memory) => Err(Refused::Memory),
        Err(_) => Err(Refused::BadLabel),
    }
}

// The number of an option, from 1 to `most`.
fn number_in(matches: &ArgMatches<'_>, name: &str, most: u32, fallback: u32) -> u32
    requires read { IsRead (found_of matches.now) }
    requires number { parser_named name.now ≡ Some (vp.Signed (pos 1) (pos most)) }
    requires some { 0 < fallback }
    requires within { fallback ≤ most }
    ensures told { result ≡ number_told fallback (one_of name.now (rows_of (found_of matches.now))) }
    ensures some { 0 < result }
    ensures within { result ≤ most }
{
    match matches.get_one::<u32>(name) {
        Some(number) => number,
        None => fallback,
    }
}

// Whether a flag is given.
fn flag_in(matches: &ArgMatches<'_>, name: &str) -> bool
    requires read { IsRead (found_of matches.now) }
    requires flag { parser_named name.now ≡ Some vp.Bool }
    ensures { result ≡ is_told (one_of name.now (rows_of (found_of matches.now))) }
{
    matches.get_flag(name)
}

// Whether the serial orders are asked for, and whether long sources are to be judged: not both.
fn order_and_long_in(alloc: Global, matches: &ArgMatches<'_>) -> Result<(bool, bool), Refused>
    requires { IsRead (found_of matches.now) }
    ensures order { IfOk result (λ both. both.0 ≡
        is_told (one_of (codes "order") (rows_of (found_of matches.now)))) }
    ensures long { IfOk result (λ both. both.1 ≡
        is_told (one_of (codes "long") (rows_of (found_of matches.now)))) }
    ensures apart { IfOk result (λ both. (both.1 && both.0) ≡ false) }
{
    let order = flag_in(matches, "order");
    let long = flag_in(matches, "long");
    if long && order {
        return Err(conflict(alloc, help::LONG_WITH_ORDER));
    }
    Ok((order, long))
}

// That two things are given together that don't go together.
fn conflict(alloc: Global, text: &'static str) -> Refused {
    match conflict_error(alloc, text) {
        Ok(error) => refusal_of(alloc, &error),
        Err(_) => Refused::Memory,
    }
}

fn conflict_error(alloc: Global, text: &'static str) -> Result<Error, AllocError> {
    let mut line = command_line(alloc)?;
    line.error(ErrorKind::ArgumentConflict, text)
}

// What is to be judged.
fn sources_in(alloc: Global, matches: &ArgMatches<'_>) -> Result<Sources, Refused>
    ensures asked { IfOk result (λ sources.
        AreAskedFor sources (texts_told (all_of (codes "files") (rows_of (found_of matches.now))))
        (first_of (codes "files0-from") (rows_of (found_of matches.now)))
        (first_of (codes "label") (rows_of (found_of matches.now)))) }
    ensures few { IfOk result (λ sources. count_named sources ≤ 2 ^ 16) }
{
    let words = matches.get_strs("files").unwrap_or(&[]);
    let list = matches.get_str("files0-from");
    let name = matches.get_str("label");
    sources_asked(alloc, words, list, name)
}

// What is to be judged where these files, this list of files and this name of standard input are given.
fn sources_asked(
    alloc: Global,
    words: &[&str],
    list: Option<&str>,
    name: Option<&str>,
) -> Result<Sources, Refused>
    ensures asked { IfOk result (λ sources. AreAskedFor sources (map (λ text. text.now) words.now)
        (option_map (λ text. text.now) list.entry) (option_map (λ text. text.now) name.entry)) }
    ensures few { IfOk result (λ sources. count_named sources ≤ 2 ^ 16) }
{
    match (words.is_empty(), list, name) {
        (true, None, None) => Ok(Sources::Standard(None)),
        (true, None, Some(name)) => Ok(Sources::Standard(Some(String::from_str(alloc, name)?))),
        (true, Some(path), None) => Ok(Sources::Listed(String::from_str(alloc, path)?)),
        (false, None, None) => files_asked(alloc, words),
        (false, Some(_), _) => Err(conflict(alloc, help::LIST_WITH_FILES)),
        (false, None, Some(_)) => Err(conflict(alloc, help::LABEL_WITH_FILES)),
        (true, Some(_), Some(_)) => Err(conflict(alloc, help::LABEL_WITH_LIST)),
    }
}

// The files of these words.
fn files_asked(alloc: Global, given: &[&str]) -> Result<Sources, Refused>
    requires { 0 < length given.now }
    ensures asked { IfOk result (λ sources. AreAskedFor sources (map (λ text. text.now) given.now)
        None None) }
    ensures few { IfOk result (λ sources. count_named sources ≤ 2 ^ 16) }
{
    if given.len() > MOST_FILES {
        return Err(Refused::TooManyFiles);
    }
    Ok(Sources::Files(owned(alloc, given)?))
}

// The form of the report. A word that names none is refused.
fn form_in(alloc: Global, matches: &ArgMatches<'_>) -> Result<Form, Refused>
    ensures { IfOk result (λ form.
        form_told (texts_told (all_of (codes "format") (rows_of (found_of matches.now)))) ≡
        Some form) }
{
    let texts = matches.get_strs("format").unwrap_or(&[]);
    if let Some(form) = first_form(texts) {
        return Ok(form);
    }
    let error = no_form(alloc)?;
    Err(refusal_of(alloc, &error))
}

// The form that the first of the texts names, if it names one.
fn first_form(texts: &[&str]) -> Option<Form>
    ensures { result ≡ form_told (map (λ text. text.now) texts.now) }
{
    match texts.first() {
        Some(text) => form_of(text),
        None => None,
    }
}

fn form_of(text: &str) -> Option<Form>
    ensures { result ≡ form_of text.now }
{
    if text == "json" {
        return Some(Form::Json);
    }
    if text == "text" {
        Some(Form::Text)
    } else {
        None
    }
}

// That what `--format` has names no form.
fn no_form(alloc: Global) -> Result<Error, AllocError> {
    let mut line = command_line(alloc)?;
    line.error(ErrorKind::InvalidValue, help::NO_FORM)
}

// When the line on progress is shown.
fn progress_in(matches: &ArgMatches<'_>) -> Progress
    requires { IsRead (found_of matches.now) }
    ensures { result ≡ progress_told
        (is_told (one_of (codes "quiet") (rows_of (found_of matches.now))))
        (is_told (one_of (codes "progress") (rows_of (found_of matches.now)))) }
{
    progress_of(flag_in(matches, "quiet"), flag_in(matches, "progress"))
}

fn progress_of(is_quiet: bool, is_wanted: bool) -> Progress
    ensures { result ≡ progress_told is_quiet is_wanted }
{
    if is_quiet {
        Progress::Never
    } else if is_wanted {
        Progress::Always
    } else {
        Progress::Auto
    }
}

// Copies of the texts.
fn owned(alloc: Global, texts: &[&str]) -> Result<Vec<String>, AllocError>
    ensures same { IfOk result (λ all. map string_bytes all.items ≡
        map (λ text. text.now) texts.now) }
    ensures len { IfOk result (λ all. vec_len all ≡ length texts.now) }
{
    let mut all = Vec::new(alloc);
    for text in texts {
        all.push(String::from_str(alloc, text)?)?;
    }
    Ok(all)
}
