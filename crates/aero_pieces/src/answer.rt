//! Answers, each with its question.
ghost use Rattle.std.specs.Prelude.{◌≡◌, ℕ, Bool, List, IfOk};
ghost use Rattle.std.specs.Arc.{arc_value};
ghost use Rattle.aero_model.specs.declared.limits.Limits.{Limits};
ghost use Rattle.aero_model.specs.Exempt.{Listed};
ghost use Rattle.aero_grammar.specs.Reading.{Reading};
ghost use Rattle.aero_judge.specs.Finding.{IsTraceFinding};
ghost use Rattle.aero_model.specs.Terms.{on, ruled, Terms as Judged};
ghost use Rattle.aero_pieces.specs.Values.{IsValueOf};

use crate::question::Question;
use aero_grammar::{Parsed, parse_block};
use aero_judge::judge_trace;
use aero_model::{Cycle, Finding, Limits, OpenBlock, SharedExcept, Step, Terms, Verdict};
use std::alloc::{AllocError, Global};
use std::marker::Model;
use std::sync::Arc;

/// The value of a question.
#[derive(Drop)]
pub enum Value {
    /// What the block says.
    Parsed(Parsed),
    /// The verdict on the trace.
    Judged(Verdict),
    /// The verdict, which is `Serializable`, and the transactions in the serial order. It is given
    /// exactly where the order is asked for and the verdict is `Serializable`.
    Ordered(Verdict, Vec<Step>),
    /// The verdict, which is `Violation`, and a telling cycle with the label of the block in which it begins. It
    /// is given exactly where a violation is to be explained and the verdict is one.
    Explained(Verdict, Cycle),
    /// The verdict, which is `Pending`, and the first of the open blocks. It is given exactly where what is found is to
    /// be explained and the verdict is one.
    Opened(Verdict, Vec<OpenBlock>),
}

/// A question with its value. `Question::answer` alone makes one.
#[derive(Drop)]
pub struct Answer {
    question: Arc<Question, Global>,
    value: Value,
}

impl Model for Answer {
    ghost use Rattle.std.specs.Arc.{arc_value};
    ghost use Rattle.aero_pieces.specs.Values.{Answered, IsValueOf};

    ghost Value = { Answered };

    ghost view = { λ a. record { question = arc_value a.question; value = a.value } };

    ghost invariant = { λ a. IsValueOf (arc_value a.question) a.value };
}

impl Question {
    /// The value of the question, worked out anew. An `AllocError` says that memory was refused.
    pub fn value(&self, alloc: Global) -> Result<Value, AllocError>
        ensures { IfOk result (λ value. IsValueOf self.now value) }
    {
        match self {
            Question::Parse { bytes, .. } => Ok(Value::Parsed(parse_block(alloc, bytes.get())?)),
            Question::Check {
                parsed,
                limits,
                except,
                end,
                order,
                explain,
                ..
            } => {
                let asked = Asked {
                    end: *end,
                    order: *order,
                    explain: *explain,
                };
                check(alloc, parsed.get(), limits, except, asked)
            }
        }
    }

    /// The question with its value. An `AllocError` says that memory was refused.
    pub fn answer(question: &Arc<Question, Global>, alloc: Global) -> Result<Answer, AllocError>
        ensures question { IfOk result (λ answer. answer.question ≡ arc_value question.now) }
        ensures value { IfOk result (λ answer. IsValueOf answer.question answer.value) }
    {
        let value = question.value(alloc)?;
        Ok(Answer {
            question: Arc::try_clone(question)?,
            value,
        })
    }
}

// Whether blocks that are open end, and what is asked for besides the verdict.
#[derive(Clone, Copy)]
struct Asked {
    end: bool,
    order: bool,
    explain: bool,
}

// The verdict on the trace that the parts hold, and what is asked for besides if it goes with that.
fn check(
    alloc: Global,
    parts: &[Parsed],
    limits: &Limits,
    except: &SharedExcept,
    asked: Asked,
) -> Result<Value, AllocError>
    ensures { IfOk result (λ value. (trace : ℕ) →
        IsValueOf (Question.Check trace parts.now limits.now except.now asked.end asked.order
        asked.explain) value) }
{
    let terms = terms_of(limits, except, asked)?;
    let finding = judge_trace(alloc, parts, &terms)?;
    Ok(value_of(finding))
}

// The terms of the question. An `AllocError` says that the labels have too many holders.
fn terms_of(limits: &Limits, except: &SharedExcept, asked: Asked) -> Result<Terms, AllocError>
    ensures { IfOk result (λ terms. terms ≡
        on (ruled limits.now except.now asked.end) asked.order asked.explain) }
{
    let mut terms = Terms::new(*limits, except.share()?, asked.order, asked.explain);
    if asked.end {
        terms.ask_to_end();
    }
    Ok(terms)
}

// What is found of a trace, as the value of the question on it.
fn value_of(finding: Finding) -> Value
    requires { (parts : List Reading) × (terms : Judged) × IsTraceFinding parts terms finding }
    ensures { (trace : ℕ) (parts : List Reading) (limits : Limits) (labels : Listed)
        (end order explain : Bool) →
        IsTraceFinding parts (on (ruled limits labels end) order explain) finding →
        IsValueOf (Question.Check trace parts limits labels end order explain) result }
{
    match finding {
        Finding::Judged(verdict) => Value::Judged(verdict),
        Finding::Ordered(verdict, steps) => Value::Ordered(verdict, steps),
        Finding::Explained(verdict, cycle) => Value::Explained(verdict, cycle),
        Finding::Opened(verdict, blocks) => Value::Opened(verdict, blocks),
        Finding::Broken(_) | Finding::TooLarge => unreachable!(),
    }
}

impl Answer {
    /// The question.
    pub fn question(&self) -> &Question
        ensures { result.now ≡ self.now.question }
    {
        &self.question
    }

    /// Its value.
    pub fn value(&self) -> &Value
        ensures value { result.now ≡ self.now.value }
        ensures known { IsValueOf self.now.question result.now }
    {
        &self.value
    }

    /// Its value alone.
    pub fn into_value(self) -> Value
        ensures value { result ≡ self.value }
        ensures known { IsValueOf self.question result }
    {
        let Answer { question: _, value } = self;
        value
    }
}
