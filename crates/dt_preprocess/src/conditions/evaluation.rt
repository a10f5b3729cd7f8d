//! The value of an expression of `#if` (C11, 6.10.1).

use crate::conditions::numeral::numeral_value;
use crate::conditions::operator::{Operator, binary, unary};
use crate::refusal::{Fault, Reason};
use crate::token::Token;
use crate::words::{Kind, Words};
use std::alloc::{AllocError, Global};

/// An expression in the making: values, none for one that divides by 0; operators that wait; whether an operand has to come.
#[derive(Drop)]
struct Evaluation {
    values: Vec<Option<i64>>,
    waiting: Vec<Operator>,
    wants_operand: bool,
}

/// `&&` and `||` have a value where the left operand tells it alone (C11, 6.5.13 and 6.5.14).
fn applied(operator: Operator, left: Option<i64>, right: Option<i64>) -> Option<i64> {
    let left = left?;
    if operator == Operator::And && left == 0 {
        return Some(0);
    }
    if operator == Operator::Or && left != 0 {
        return Some(1);
    }
    operator.of_two(left, right?)
}

impl Evaluation {
    /// Applies an operator to the last values.
    fn apply(&mut self, operator: Operator) -> Result<(), AllocError> {
        let right = self.values.pop().unwrap_or(None);
        let value = if operator.is_unary() {
            right.map(|value| operator.of_one(value))
        } else {
            let left = self.values.pop().unwrap_or(None);
            applied(operator, left, right)
        };
        self.values.push(value)?;
        Ok(())
    }

    /// Applies the operators that bind as tightly as a level.
    fn reduce(&mut self, level: u8) -> Result<(), AllocError> {
        for _ in 0..self.waiting.len() {
            let Some(operator) = self.waiting.last().copied() else {
                break;
            };
            if operator.level() < level {
                break;
            }
            let _ = self.waiting.pop();
            self.apply(operator)?;
        }
        Ok(())
    }

    /// Takes an operand, or what stands before one.
    fn take_operand(&mut self, words: &Words, token: &Token) -> Result<(), Fault> {
        let word = words.text(token.word);
        if let Some(operator) = unary(word) {
            self.waiting.push(operator)?;
            return Ok(());
        }
        if token.kind == Kind::Open {
            self.waiting.push(Operator::Open)?;
            return Ok(());
        }
        let value = match token.kind {
            Kind::Name => 0,
            Kind::Number => numeral_value(word).map_err(|reason| Fault::new(
                reason,
                token.place,
                token.word,
            ))?,
            Kind::Quoted => return Err(Fault::new(Reason::Unserved, token.place, token.word)),
            _ => return Err(Fault::new(Reason::Condition, token.place, token.word)),
        };
        self.values.push(Some(value))?;
        self.wants_operand = false;
        Ok(())
    }

    /// Takes what stands behind an operand.
    fn take_operator(&mut self, words: &Words, token: &Token) -> Result<(), Fault> {
        if token.kind == Kind::Close {
            self.reduce(1)?;
            return match self.waiting.pop() {
                Some(_) => Ok(()),
                None => Err(Fault::new(Reason::Condition, token.place, token.word)),
            };
        }
        let word = words.text(token.word);
        let Some(operator) = binary(word) else {
            let reason = if word == b"?".as_slice() {
                Reason::Unserved
            } else {
                Reason::Condition
            };
            return Err(Fault::new(reason, token.place, token.word));
        };
        self.reduce(operator.level())?;
        self.waiting.push(operator)?;
        self.wants_operand = true;
        Ok(())
    }

    /// The value where all is read.
    fn finish(self, last: &Token) -> Result<bool, Fault> {
        let mut evaluation = self;
        evaluation.reduce(1)?;
        if !evaluation.waiting.is_empty() || evaluation.wants_operand {
            return Err(Fault::new(Reason::Condition, last.place, last.word));
        }
        match evaluation.values.pop() {
            Some(Some(value)) => Ok(value != 0),
            _ => Err(Fault::new(Reason::Condition, last.place, last.word)),
        }
    }
}

/// Whether the value of an expression isn't 0. A name that is left is 0. `directive` is the place of an empty one.
pub(crate) fn evaluate(
    alloc: Global,
    words: &Words,
    tokens: &[Token],
    directive: &Token,
) -> Result<bool, Fault> {
    let mut evaluation = Evaluation {
        values: Vec::new(alloc),
        waiting: Vec::new(alloc),
        wants_operand: true,
    };
    for token in tokens {
        if evaluation.wants_operand {
            evaluation.take_operand(words, token)?;
        } else {
            evaluation.take_operator(words, token)?;
        }
    }
    evaluation.finish(tokens.last().unwrap_or(directive))
}
