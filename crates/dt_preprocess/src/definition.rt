//! Macros (C11, 6.10.3; `x...` and `, ## rest` as GNU has them).

use crate::refusal::{Fault, Place, Reason};
use crate::token::{Space, Token};
use crate::words::{Kind, Words};
use std::alloc::{AllocError, Global};

/// The most parameters of a macro.
const MAX_PARAMETERS: usize = 256;

/// What an element of a body gives.
#[derive(Clone, Copy)]
pub(crate) enum Role {
    Plain,
    /// `##`
    Paste,
    /// a parameter, by its number: its argument expanded alone
    Parameter(usize),
    /// a parameter beside `##`: its argument as it is
    Beside(usize),
    /// `#` before a parameter: its argument's text
    Text(usize),
}

/// A token of a body and what it gives.
#[derive(Clone, Copy)]
pub(crate) struct Element {
    pub token: Token,
    pub role: Role,
}

/// The parameters of a macro: their words, whether the last takes the rest, and which are given expanded.
#[derive(Drop)]
pub(crate) struct Parameters {
    pub words: Vec<usize>,
    pub variadic: bool,
    pub expanded: Vec<bool>,
}

/// A macro: its name's word, its parameters, if it takes any, and its body.
#[derive(Drop)]
pub(crate) struct Macro {
    pub name: usize,
    pub parameters: Option<Parameters>,
    pub body: Vec<Element>,
}

impl Parameters {
    fn number_of(&self, token: &Token) -> Option<usize> {
        self.words
            .as_slice()
            .iter()
            .position(|word| *word == token.word)
    }

    /// Whether the last takes the rest, and a number is the last's.
    pub(crate) fn is_rest(&self, number: usize) -> bool {
        self.variadic && self.words.len() == number.saturating_add(1)
    }

    /// Whether an argument is given expanded somewhere.
    pub(crate) fn expands(&self, number: usize) -> bool {
        self.expanded.get(number).copied().unwrap_or(false)
    }
}

fn wrong(token: &Token) -> Fault {
    Fault::new(Reason::Directive, token.place, token.word)
}

/// What stands behind one parameter.
#[derive(Drop)]
enum Behind {
    Next(usize),
    Closed(usize),
}

/// Reads one parameter at a number in a line, and what ends it.
fn take_parameter(
    words: &mut Words,
    parameters: &mut Parameters,
    line: &[Token],
    at: usize,
    name: &Token,
) -> Result<Behind, Fault> {
    let Some(token) = line.get(at) else {
        return Err(wrong(name));
    };
    if parameters.variadic || parameters.number_of(token).is_some() {
        return Err(wrong(token));
    }
    if parameters.words.len() >= MAX_PARAMETERS {
        return Err(Fault::new(Reason::TooManyTokens, token.place, token.word));
    }
    let mut at = at.saturating_add(1);
    match token.kind {
        Kind::Dots => {
            parameters.variadic = true;
            parameters.words.push(words.intern(b"__VA_ARGS__")?)?;
        }
        Kind::Name => {
            parameters.words.push(token.word)?;
            if kind_at(line, at) == Kind::Dots {
                parameters.variadic = true;
                at = at.saturating_add(1);
            }
        }
        _ => return Err(wrong(token)),
    }
    parameters.expanded.push(false)?;
    let behind = at.saturating_add(1);
    match kind_at(line, at) {
        Kind::Comma => Ok(Behind::Next(behind)),
        Kind::Close => Ok(Behind::Closed(behind)),
        _ => Err(wrong(line.get(at).unwrap_or(name))),
    }
}

/// The kind of a token of a line, `Empty` behind its end.
pub(crate) fn kind_at(line: &[Token], at: usize) -> Kind {
    match line.get(at) {
        Some(token) => token.kind,
        None => Kind::Empty,
    }
}

/// Parameters, and the number of the first token behind them.
#[derive(Drop)]
struct Head {
    parameters: Option<Parameters>,
    body: usize,
}

/// Reads parameters from the number behind their `(`.
fn take_parameters(
    alloc: Global,
    words: &mut Words,
    line: &[Token],
    name: &Token,
) -> Result<Head, Fault> {
    let mut parameters = Parameters {
        words: Vec::new(alloc),
        variadic: false,
        expanded: Vec::new(alloc),
    };
    let mut at = 2;
    if kind_at(line, at) == Kind::Close {
        return Ok(Head {
            parameters: Some(parameters),
            body: 3,
        });
    }
    for _ in 0..=MAX_PARAMETERS {
        match take_parameter(words, &mut parameters, line, at, name)? {
            Behind::Next(next) => at = next,
            Behind::Closed(body) => {
                return Ok(Head {
                    parameters: Some(parameters),
                    body,
                });
            }
        }
    }
    Err(Fault::new(Reason::TooManyTokens, name.place, name.word))
}

/// What stands before the body: a name and, where `(` touches it, parameters.
fn take_head(
    alloc: Global,
    words: &mut Words,
    line: &[Token],
    name: &Token,
) -> Result<Head, Fault> {
    match line.get(1) {
        Some(open) => {
            if open.kind == Kind::Open && !open.space.white {
                return take_parameters(alloc, words, line, name);
            }
        }
        None => {}
    }
    Ok(Head {
        parameters: None,
        body: 1,
    })
}

fn number_of(parameters: &Option<Parameters>, token: Option<&Token>) -> Option<usize> {
    match (parameters, token) {
        (Some(parameters), Some(token)) => parameters.number_of(token),
        _ => None,
    }
}

/// What a token gives, behind `##` or not, before another.
fn role_of(
    parameters: &Option<Parameters>,
    token: &Token,
    pasting: bool,
    next: Option<&Token>,
) -> Role {
    if token.kind == Kind::Paste {
        return Role::Paste;
    }
    if token.kind == Kind::Hash {
        if let Some(number) = number_of(parameters, next) {
            return Role::Text(number);
        }
    }
    let Some(number) = number_of(parameters, Some(token)) else {
        return Role::Plain;
    };
    let before_paste = match next {
        Some(next) => next.kind == Kind::Paste,
        None => false,
    };
    if pasting || before_paste {
        Role::Beside(number)
    } else {
        Role::Parameter(number)
    }
}

/// Notes that an argument is given expanded.
fn note_role(parameters: &mut Option<Parameters>, role: Role) {
    if let (Some(parameters), Role::Parameter(number)) = (parameters, role) {
        if let Some(expanded) = parameters.expanded.get_mut(number) {
            *expanded = true;
        }
    }
}

/// The elements of a body.
fn elements(
    alloc: Global,
    parameters: &mut Option<Parameters>,
    body: &[Token],
) -> Result<Vec<Element>, AllocError> {
    let mut elements = Vec::new(alloc);
    let mut pasting = false;
    let mut passes = false;
    for (i, token) in body.iter().enumerate() {
        if passes {
            passes = false;
            pasting = false;
            continue;
        }
        let role = role_of(parameters, token, pasting, body.get(i.saturating_add(1)));
        note_role(parameters, role);
        passes = matches!(role, Role::Text(_));
        pasting = matches!(role, Role::Paste);
        let space = if i == 0 { Space::NONE } else { token.space };
        elements.push(Element {
            token: token.after(space),
            role,
        })?;
    }
    Ok(elements)
}

/// Refuses a body that begins or ends with `##`.
fn check_ends(body: &[Token]) -> Result<(), Fault> {
    if let (Some(first), Some(last)) = (body.first(), body.last()) {
        if first.kind == Kind::Paste {
            return Err(wrong(first));
        }
        if last.kind == Kind::Paste {
            return Err(wrong(last));
        }
    }
    Ok(())
}

/// The name that a directive gives: of a macro, and not one that is refused.
pub(crate) fn macro_name<'t>(
    words: &Words,
    line: &'t [Token],
    directive: Place,
) -> Result<&'t Token, Fault> {
    let Some(name) = line.first() else {
        return Err(Fault::bare(Reason::Directive, directive));
    };
    if name.kind == Kind::Special {
        return Err(Fault::new(Reason::Unserved, name.place, name.word));
    }
    if name.kind != Kind::Name || words.text(name.word) == b"defined".as_slice() {
        return Err(wrong(name));
    }
    Ok(name)
}

/// The macro of a definition: what stands behind `#define`.
pub(crate) fn define(
    alloc: Global,
    words: &mut Words,
    line: &[Token],
    directive: Place,
) -> Result<Macro, Fault> {
    let name = macro_name(words, line, directive)?;
    if words.text(name.word) == b"__VA_ARGS__".as_slice() {
        return Err(wrong(name));
    }
    let Head {
        mut parameters,
        body,
    } = take_head(alloc, words, line, name)?;
    let body = line.get(body..).unwrap_or(&[]);
    check_ends(body)?;
    let body = elements(alloc, &mut parameters, body)?;
    Ok(Macro {
        name: name.word,
        parameters,
        body,
    })
}
