//! Directives that choose groups of lines (C11, 6.10.1).

use crate::conditions::evaluation::evaluate;
use crate::conditions::group::Group;
use crate::definition::{kind_at, macro_name};
use crate::expansion::machine::{Tables, expand};
use crate::expansion::source::Source;
use crate::files::directive::Directive;
use crate::refusal::{Fault, Reason};
use crate::token::Token;
use crate::words::{Kind, Words};
use std::alloc::Global;

/// Whether a name is a macro's.
fn is_defined(words: &Words, name: &Token) -> Result<bool, Fault> {
    match name.kind {
        Kind::Special => Err(Fault::new(Reason::Unserved, name.place, name.word)),
        Kind::Name => Ok(words.meaning(name.word).is_some()),
        _ => Err(Fault::new(Reason::Condition, name.place, name.word)),
    }
}

/// The name behind `defined` or `defined(`, and how many tokens stand before what is behind both.
#[derive(Drop)]
struct Asked<'t> {
    name: &'t Token,
    length: usize,
}

/// What `defined` at the front of a line asks for.
fn question_of<'t>(line: &'t [Token], defined: &'t Token) -> Result<Asked<'t>, Fault> {
    let wrong = Fault::new(Reason::Condition, defined.place, defined.word);
    if kind_at(line, 1) != Kind::Open {
        let name = line.get(1).ok_or(wrong)?;
        return Ok(Asked { name, length: 2 });
    }
    if kind_at(line, 3) != Kind::Close {
        return Err(wrong);
    }
    let name = line.get(2).ok_or(wrong)?;
    Ok(Asked { name, length: 4 })
}

/// The line with 1 or 0 in the place of each `defined`.
fn answered(alloc: Global, words: &mut Words, line: &[Token]) -> Result<Vec<Token>, Fault> {
    let mut out = Vec::new(alloc);
    let mut left = line;
    for _ in 0..line.len() {
        let Some(token) = left.first() else {
            break;
        };
        let mut length = 1;
        let mut answer = *token;
        if words.text(token.word) == b"defined".as_slice() {
            let question = question_of(left, token)?;
            let digit: &[u8] = if is_defined(words, question.name)? {
                b"1"
            } else {
                b"0"
            };
            answer.word = words.intern(digit)?;
            answer.kind = Kind::Number;
            length = question.length;
        }
        out.push(answer)?;
        left = left.get(length..).unwrap_or(&[]);
    }
    Ok(out)
}

/// Whether the condition of a line holds.
fn holds(alloc: Global, tables: &mut Tables, line: &[Token], name: &Token) -> Result<bool, Fault> {
    let condition = line.get(2..).unwrap_or(&[]);
    let ready = answered(alloc, &mut tables.words, condition)?;
    let expanded = expand(alloc, tables, &mut Source::none(), ready.as_slice())?;
    evaluate(alloc, &tables.words, expanded.as_slice(), name)
}

/// Whether the one name behind `#ifdef` or `#ifndef` is a macro's.
fn names_macro(words: &Words, line: &[Token], name: &Token) -> Result<bool, Fault> {
    let asked = macro_name(words, line.get(2..).unwrap_or(&[]), name.place)?;
    if let Some(other) = line.get(3) {
        return Err(Fault::new(Reason::Directive, other.place, other.word));
    }
    Ok(words.meaning(asked.word).is_some())
}

/// The condition of a directive that begins groups.
fn begins(
    alloc: Global,
    tables: &mut Tables,
    directive: Directive,
    line: &[Token],
    name: &Token,
) -> Result<bool, Fault> {
    match directive {
        Directive::Ifdef => names_macro(&tables.words, line, name),
        Directive::Ifndef => Ok(!names_macro(&tables.words, line, name)?),
        _ => holds(alloc, tables, line, name),
    }
}

/// Goes on to the next group of the innermost `#if`, or ends it.
fn go_on(
    alloc: Global,
    tables: &mut Tables,
    groups: &mut Vec<Group>,
    directive: Directive,
    line: &[Token],
    name: &Token,
) -> Result<(), Fault> {
    let Some(mut group) = groups.pop() else {
        return Err(Fault::new(Reason::Conditional, name.place, name.word));
    };
    if directive == Directive::Endif {
        return Ok(());
    }
    let counts = group.go_on(name)?;
    group.has_else = directive == Directive::Else;
    if counts && (group.has_else || holds(alloc, tables, line, name)?) {
        group.take();
    }
    groups.push(group)?;
    Ok(())
}

/// Takes a directive that chooses groups.
pub(crate) fn choose(
    alloc: Global,
    tables: &mut Tables,
    groups: &mut Vec<Group>,
    directive: Directive,
    line: &[Token],
) -> Result<(), Fault> {
    let (Some(hash), Some(name)) = (line.first(), line.get(1)) else {
        return Ok(());
    };
    match directive {
        Directive::If | Directive::Ifdef | Directive::Ifndef => {
            let group = if skips(groups.as_slice()) {
                Group::skipped(*hash)
            } else {
                Group::new(begins(alloc, tables, directive, line, name)?, *hash)
            };
            groups.push(group)?;
            Ok(())
        }
        _ => go_on(alloc, tables, groups, directive, line, name),
    }
}

/// Whether lines are skipped: the innermost group isn't taken.
pub(crate) fn skips(groups: &[Group]) -> bool {
    match groups.last() {
        Some(group) => !group.is_taken(),
        None => false,
    }
}
