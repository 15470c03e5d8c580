// What an event does: the second field of its line.
ghost use Rattle.std.specs.Prelude.{◌≡◌, ◌==◌, ◌<◌, ◌≤◌, ◌||◌, true, false, length, is_none, option_copied, IfSome, Some, if◌then◌else◌};
ghost use Rattle.std.specs.List.{list_any, position_or_len};
ghost use Rattle.aero_model.specs.Exempt.{label_of as label_of_op};
ghost use Rattle.aero_model.specs.Named.{stands_alone as is_alone};
ghost use Rattle.aero_grammar.specs.Meaning.{Means, Faulty, is_parenthesis, operation_word, operation_of as operation_of_word, longer_operation_of as longer_word, is_unclosed, target_bytes, is_long_name as is_long, label_in, word_meaning};
ghost use Rattle.aero_grammar.specs.Words.{ReadsEvent};

use crate::bytes::place_of;
use crate::names::is_long_name;
use crate::words::Words;
use aero_model::{LineFault, Op};

// The words of a thread's event, by what its operation's field says.
#[inline(always)]
pub fn parse_operation<'a>(thread: &'a [u8], field: &'a [u8]) -> Result<Words<'a>, LineFault>
    ensures { ReadsEvent result (word_meaning thread.now field.now
        (operation_of_word (operation_word field.now))) }
{
    let end = place_of(b'(', field);
    let Some(op) = operation_of(&field[..end]) else {
        return Err(LineFault::UnknownOperation);
    };
    let Some(target) = enclosed(field, end) else {
        return Err(LineFault::BadParenthesis);
    };
    if stands_alone(op) {
        event_alone(thread, op, target)
    } else {
        event_with_target(thread, op, target)
    }
}

// The operation of a word, where it is one of the eight.
#[inline(always)]
fn operation_of(word: &[u8]) -> Option<Op>
    ensures { result ≡ operation_of_word word.now }
{
    match word {
        b"r" => Some(Op::Read),
        b"w" => Some(Op::Write),
        b"acq" => Some(Op::Acquire),
        b"rel" => Some(Op::Release),
        _ => longer_operation_of(word),
    }
}

// The same for the four that aren't about a variable or a lock.
#[inline(always)]
fn longer_operation_of(word: &[u8]) -> Option<Op>
    ensures { result ≡ longer_word word.now }
{
    match word {
        b"fork" => Some(Op::Fork),
        b"join" => Some(Op::Join),
        b"begin" => Some(Op::Begin),
        b"end" => Some(Op::End),
        _ => None,
    }
}

#[inline(always)]
fn stands_alone(op: Op) -> bool
    ensures { result ≡ is_alone op }
{
    matches!(op, Op::Begin | Op::End)
}

// What stands between the field's first `(`, whose place is given, and its last byte. It is
// nothing where there is no `(`, and `None` where there is one and the last byte is no `)`.
#[inline(always)]
fn enclosed(field: &[u8], place: usize) -> Option<&[u8]>
    requires place { place ≡ position_or_len is_parenthesis field.now }
    requires within { place ≤ length field.now }
    ensures unclosed { is_unclosed field.now ≡ is_none result }
    ensures target { IfSome result (λ target. target.now ≡ target_bytes field.now) }
{
    if place == field.len() {
        return Some(&[]);
    }
    let last = field.len() - 1;
    if field[last] != b')' {
        return None;
    }
    Some(&field[place + 1..last])
}

#[inline(always)]
fn event_alone<'a>(thread: &'a [u8], op: Op, enclosed: &'a [u8]) -> Result<Words<'a>, LineFault>
    requires { is_alone op ≡ true }
    ensures { ReadsEvent result (if is_long thread.now then Faulty LineFault.NameTooLong else
        Means (record {
          thread = thread.now;
          op = op;
          target = label_of_op op
              (label_in enclosed.now);
        })) }
{
    if is_long_name(thread) {
        return Err(LineFault::NameTooLong);
    }
    let target = label_of(op, enclosed);
    Ok(Words { thread, op, target })
}

// The label of a begin, by what stands in its parentheses.
#[inline(always)]
fn label_of(op: Op, enclosed: &[u8]) -> Option<&[u8]>
    ensures { option_copied result ≡ label_of_op op (label_in enclosed.now) }
{
    if op == Op::Begin && !enclosed.is_empty() && !is_long_name(enclosed) {
        Some(enclosed)
    } else {
        None
    }
}

#[inline(always)]
fn event_with_target<'a>(thread: &'a [u8], op: Op, target: &'a [u8]) -> Result<Words<'a>, LineFault>
    requires { is_alone op ≡ false }
    ensures { ReadsEvent result (if length target.now == 0 then Faulty LineFault.MissingTarget else
        if is_long thread.now || is_long target.now then Faulty LineFault.NameTooLong else
        Means (record { thread = thread.now; op = op; target = Some target.now })) }
{
    if target.is_empty() {
        return Err(LineFault::MissingTarget);
    }
    if is_long_name(thread) || is_long_name(target) {
        return Err(LineFault::NameTooLong);
    }
    let target = Some(target);
    Ok(Words { thread, op, target })
}
