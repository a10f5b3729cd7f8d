//! The outline of a text.

use crate::lexing::bytes::text_of;
use crate::lexing::lexer::Lexer;
use crate::lexing::token::{Kind, Span, Token};
use crate::outlining::groups::{Directive, Groups, add_header};
use crate::outlining::outline::{
    Fold, FoldKind, Label, Node, NodeKind, Outline, Property, Reference,
};
use crate::outlining::statement::{Purpose, Statement, Subject};
use std::alloc::{AllocError, Global};

/// Makes an outline out of tokens.
#[derive(Drop)]
pub(crate) struct Outliner<'t> {
    text: &'t [u8],
    outline: Outline,
    groups: Groups,
    /// The nodes that are open, the innermost last.
    opened: Vec<usize>,
    /// The node whose `}` was the last token.
    closed: Option<usize>,
    pub statement: Statement,
}

impl<'t> Outliner<'t> {
    pub(crate) fn new(alloc: Global, text: &'t [u8]) -> Self {
        Outliner {
            text,
            outline: Outline::new(alloc),
            groups: Groups::new(alloc),
            opened: Vec::new(alloc),
            closed: None,
            statement: Statement::new(0),
        }
    }

    fn restart(&mut self) {
        self.statement = Statement::new(self.outline.labels.len());
    }

    /// Takes the next token, which stands in cells or between parentheses or not.
    pub(crate) fn take(&mut self, token: Token, in_expression: bool) -> Result<(), AllocError> {
        match token.kind {
            Kind::Comment => return self.add_fold(FoldKind::Comment, token.span),
            Kind::Directive => return self.groups.begin(&mut self.outline, self.text, token),
            Kind::DirectiveEnd => return self.groups.end(&mut self.outline, token),
            Kind::Reference => self.refer(token)?,
            _ => {}
        }
        if self.groups.directive != Directive::None {
            return self.groups.take(&mut self.outline, self.text, token);
        }
        let closed = self.closed.take();
        match token.kind {
            Kind::Semicolon => self.end_statement(token, closed),
            Kind::Brace => self.begin_node(token),
            Kind::EndBrace => self.end_node(token),
            Kind::Label => self.label(token),
            _ if in_expression => Ok(()),
            _ => self.take_plain(token),
        }
    }

    /// A token outside of cells and parentheses.
    fn take_plain(&mut self, token: Token) -> Result<(), AllocError> {
        match token.kind {
            Kind::Word | Kind::Slash | Kind::Reference | Kind::PathReference => {
                self.statement.name(token);
            }
            Kind::Equals => self.begin_value()?,
            Kind::Keyword => self.keyword(token),
            Kind::Text if self.statement.purpose == Purpose::Includes => {
                add_header(&mut self.outline, self.text, token)?;
                self.restart();
            }
            _ => {}
        }
        Ok(())
    }

    fn add_fold(&mut self, kind: FoldKind, span: Span) -> Result<(), AllocError> {
        self.outline.folds.push(Fold { kind, span })?;
        Ok(())
    }

    fn refer(&mut self, token: Token) -> Result<(), AllocError> {
        let Span { start, end } = token.span;
        let name = Span {
            start: start.saturating_add(1),
            end,
        };
        if name.start < end {
            self.outline.references.push(Reference { name })?;
        }
        Ok(())
    }

    /// A label: of the statement, or in a value.
    fn label(&mut self, token: Token) -> Result<(), AllocError> {
        let Span { start, end } = token.span;
        let name = Span {
            start,
            end: end.saturating_sub(1),
        };
        let in_value = self.statement.purpose == Purpose::Gives;
        if !in_value {
            self.statement.begin(token);
        }
        self.outline.labels.push(Label { name, node: None })?;
        if in_value {
            self.statement.labels = self.outline.labels.len();
        }
        Ok(())
    }

    fn keyword(&mut self, token: Token) {
        let word = text_of(self.text, token.span);
        if word == b"/dts-v1/".as_slice() {
            self.outline.is_board = true;
        } else if word == b"/include/".as_slice() {
            self.statement.purpose = Purpose::Includes;
        } else if word.starts_with(b"/delete-") {
            self.statement.purpose = Purpose::Deletes;
        }
    }

    /// `=` behind a name: a property.
    fn begin_value(&mut self) -> Result<(), AllocError> {
        let subject = self.statement.subject.take();
        self.statement.purpose = Purpose::Gives;
        self.statement.labels = self.outline.labels.len();
        match subject {
            Some(subject) if subject.kind == NodeKind::Child => self.add_property(subject.name),
            _ => Ok(()),
        }
    }

    fn add_property(&mut self, name: Span) -> Result<(), AllocError> {
        if !self.opened.is_empty() {
            self.outline.properties.push(Property { name })?;
        }
        Ok(())
    }

    /// `;`: a property without a value, or the end of what began before.
    fn end_statement(&mut self, token: Token, closed: Option<usize>) -> Result<(), AllocError> {
        if let Some(number) = closed {
            self.stretch(number, token.span.end);
        }
        if let Some(name) = self.statement.flag() {
            self.add_property(name)?;
        }
        self.restart();
        Ok(())
    }

    /// Has a node reach to a place.
    fn stretch(&mut self, number: usize, end: usize) {
        if let Some(node) = self.outline.nodes.get_mut(number) {
            node.whole.end = end;
        }
    }

    /// `{`: a node.
    fn begin_node(&mut self, token: Token) -> Result<(), AllocError> {
        let nowhere = Subject {
            kind: NodeKind::Child,
            name: Span {
                start: token.span.start,
                end: token.span.start,
            },
        };
        let subject = self.statement.subject.unwrap_or(nowhere);
        let number = self.outline.nodes.len();
        self.outline.nodes.push(Node {
            kind: subject.kind,
            name: subject.name,
            whole: Span {
                start: self.statement.first(token),
                end: self.text.len(),
            },
            parent: self.opened.last().copied(),
        })?;
        self.name_node(number);
        self.opened.push(number)?;
        self.restart();
        Ok(())
    }

    /// The labels of the statement name a node.
    fn name_node(&mut self, number: usize) {
        let from = self.statement.labels;
        for label in self.outline.labels.iter_mut().skip(from) {
            label.node = Some(number);
        }
    }

    /// `}`
    fn end_node(&mut self, token: Token) -> Result<(), AllocError> {
        self.restart();
        let Some(number) = self.opened.pop() else {
            return Ok(());
        };
        self.stretch(number, token.span.end);
        self.closed = Some(number);
        match self.outline.nodes.get(number).copied() {
            Some(node) => self.add_fold(FoldKind::Node, node.whole),
            None => Ok(()),
        }
    }

    pub(crate) fn into_outline(self) -> Outline {
        let Outliner { outline, .. } = self;
        outline
    }
}

/// Has an outliner take all tokens of a text.
pub(crate) fn run(
    outliner: &mut Outliner<'_>,
    lexer: &mut Lexer<'_>,
    most: usize,
) -> Result<(), AllocError> {
    for _ in 0..=most {
        let in_expression = lexer.is_in_expression();
        let Some(token) = lexer.next_token() else {
            return Ok(());
        };
        outliner.take(token, in_expression)?;
    }
    Ok(())
}

/// What a text has, as far as it is written: a fault in it never ends the pass, which goes over the text once.
pub fn outline(alloc: Global, text: &[u8]) -> Result<Outline, AllocError> {
    let mut outliner = Outliner::new(alloc, text);
    let mut lexer = Lexer::new(text);
    // each token has a byte of its own, but for the end of a directive, which has its line's end
    run(&mut outliner, &mut lexer, text.len().saturating_add(1))?;
    Ok(outliner.into_outline())
}
