//! The statement that is being read.

use crate::lexing::token::{Kind, Span, Token};
use crate::outlining::outline::NodeKind;

/// What a statement names.
#[derive(Clone, Copy)]
pub(crate) struct Subject {
    pub kind: NodeKind,
    pub name: Span,
}

/// What a statement does.
#[derive(Clone, Copy, PartialEq, Eq)]
pub(crate) enum Purpose {
    /// It may yet be a node, or a property without a value.
    Defines,
    /// The value of a property.
    Gives,
    /// `/delete-node/` or `/delete-property/`
    Deletes,
    /// `/include/`
    Includes,
}

/// A statement as far as it is read.
#[derive(Clone, Copy)]
pub(crate) struct Statement {
    /// Its first byte, once it has one.
    pub start: Option<usize>,
    pub subject: Option<Subject>,
    pub purpose: Purpose,
    /// The number of the first label that stands before its subject.
    pub labels: usize,
}

impl Statement {
    /// Before its first token.
    pub(crate) fn new(labels: usize) -> Statement {
        Statement {
            start: None,
            subject: None,
            purpose: Purpose::Defines,
            labels,
        }
    }

    /// Notes where it begins.
    pub(crate) fn begin(&mut self, token: Token) {
        if self.start.is_none() {
            self.start = Some(token.span.start);
        }
    }

    /// A token that may name what it is about. In a value such a word is a macro, or what follows a forgotten `;`.
    pub(crate) fn name(&mut self, token: Token) {
        let kind = match token.kind {
            Kind::Slash => NodeKind::Root,
            Kind::Reference | Kind::PathReference => NodeKind::Extension,
            _ => NodeKind::Child,
        };
        if self.purpose == Purpose::Gives {
            self.start = Some(token.span.start);
        } else {
            self.begin(token);
        }
        self.subject = Some(Subject {
            kind,
            name: token.span,
        });
    }

    /// What a node or a property begins with: the first byte, or the token before which nothing stands.
    pub(crate) fn first(&self, token: Token) -> usize {
        self.start.unwrap_or(token.span.start)
    }

    /// The name of the property that it gives, without a value, where it does.
    pub(crate) fn flag(&self) -> Option<Span> {
        match self.subject {
            Some(subject) if self.purpose == Purpose::Defines && subject.kind == NodeKind::Child =>
                { Some(subject.name) }
            _ => None,
        }
    }
}
