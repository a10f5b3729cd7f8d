//! The context in which a lexeme stands, which says what may stand there.
ghost use Rattle.std.specs.Prelude.{◌≡◌, ◌<◌};
ghost use Rattle.dt_text.specs.Lexeme.Contexts.{step, start};

use crate::lexeme::language::Language;
use crate::lexeme::lexeme::Kind;

/// At a statement's beginning, between `[` and `]`, or elsewhere.
#[derive(Clone, Copy)]
pub enum Mode {
    Value,
    Name,
    Byte,
}

/// The text's language, how many bodies and parentheses are open, and what may stand next.
#[derive(Clone, Copy)]
pub struct Context {
    pub language: Language,
    pub braces: usize,
    pub parens: usize,
    pub mode: Mode,
}

impl Context {
    /// The context where a text in this language begins.
    pub(crate) fn start(language: Language) -> Context
        ensures { result ≡ start language }
    {
        Context {
            language,
            braces: 0,
            parens: 0,
            mode: Mode::Value,
        }
    }

    /// The context behind a lexeme.
    #[tactic(auto, unfolding(crate::specs::Lexeme::Contexts::step))]
    pub(crate) fn step(self, kind: Kind) -> Context
        requires braces { self.braces < 18446744073709551615 }
        requires parens { self.parens < 18446744073709551615 }
        ensures { result ≡ step self kind }
    {
        let Context {
            language,
            braces,
            parens,
            mode: _,
        } = self;
        let statement = if braces == 0 { Mode::Value } else { Mode::Name };
        match kind {
            Kind::Brace => Context {
                language,
                braces: braces + 1,
                parens,
                mode: Mode::Name,
            },
            Kind::EndBrace => Context {
                language,
                braces: braces.saturating_sub(1),
                parens,
                mode: Mode::Value,
            },
            Kind::Semicolon | Kind::DeleteNode | Kind::DeleteProperty | Kind::OmitIfNoRef =>
                Context {
                    language,
                    braces,
                    parens,
                    mode: statement,
                },
            Kind::Square => Context {
                language,
                braces,
                parens,
                mode: Mode::Byte,
            },
            Kind::Paren => Context {
                language,
                braces,
                parens: parens + 1,
                mode: Mode::Value,
            },
            Kind::EndParen => Context {
                language,
                braces,
                parens: parens.saturating_sub(1),
                mode: Mode::Value,
            },
            Kind::Label | Kind::Pair => self,
            _ => Context {
                language,
                braces,
                parens,
                mode: Mode::Value,
            },
        }
    }
}
