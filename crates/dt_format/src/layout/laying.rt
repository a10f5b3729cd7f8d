//! A text laid out, token by token.
use crate::layout::columns::{TAB, column_behind};
use crate::layout::depth::Depth;
use crate::layout::fault::LayoutError;
use crate::layout::gap::{Gap, Sign, gap_between, sign_of};
use crate::layout::nodes::nodes_of;
use crate::layout::statement::{Moved, Statement};
use crate::layout::writer::Writer;
use crate::style::{Hex, Style};
use crate::tokens::{Kind, Token, line_feeds};
use std::alloc::{AllocError, Global};

/// What stands before a token.
#[derive(Clone, Copy, PartialEq, Eq, Debug)]
enum Behind {
    /// nothing
    Start,
    /// a brace that opens a body
    Open,
    /// a statement
    End,
    /// a comment or a directive that stands between statements
    Between,
    /// a part of a statement
    Inside,
}

/// A text that is laid out, up to some token.
#[derive(Drop)]
struct Layout<'t> {
    hex: Hex,
    writer: Writer,
    depth: Depth,
    behind: Behind,
    statement: Statement,
    previous: Option<Token<'t>>,
    /// where the next token's white space stands in the text
    column: usize,
    place: usize,
}

/// A token where it stands.
#[derive(Clone, Copy)]
struct Site<'t> {
    token: Token<'t>,
    /// A node begins here.
    is_node: bool,
    /// so many lines end before it
    feeds: usize,
    column: usize,
    place: usize,
}

// The white space of a token's own line before it.
fn own_blanks(before: &[u8]) -> &[u8] {
    let mut own = before;
    let mut left = before;
    'bytes: while let [c, rest @ ..] = left {
        if *c == b'\n' {
            own = rest;
        }
        left = rest;
    }
    own
}

// So many lines as the text ends, one at least and one blank line at most.
fn lines_as_written(feeds: usize) -> usize {
    if feeds > 1 { 2 } else { 1 }
}

impl<'t> Layout<'t> {
    fn new(alloc: Global, style: Style) -> Layout<'t> {
        Layout {
            hex: style.hex,
            writer: Writer::new(alloc),
            depth: Depth::new(alloc),
            behind: Behind::Start,
            statement: Statement::new(Moved { old: 0, new: 0 }),
            previous: None,
            column: 0,
            place: 0,
        }
    }

    fn indentation(&self) -> usize {
        self.depth.depth().saturating_mul(TAB)
    }

    // How many lines end before what stands on a line of its own.
    fn lines_before(&self, site: &Site) -> usize {
        match self.behind {
            Behind::Start => 0,
            Behind::Open => 1,
            Behind::End if site.is_node => 2,
            Behind::End | Behind::Between | Behind::Inside => lines_as_written(site.feeds),
        }
    }

    // Whether the line has to end before any token.
    fn is_at_line_end(&self) -> bool {
        match &self.previous {
            Some(token) => token.kind == Kind::Remark || token.kind == Kind::Directive,
            None => false,
        }
    }

    fn lay_directive(&mut self, site: &Site) -> Result<(), AllocError> {
        let lines = self.lines_before(site);
        self.writer.end_lines(lines)?;
        self.writer.put(own_blanks(site.token.before))?;
        self.writer.put_token(self.hex, &site.token)?;
        self.depth.pass(site.token.bytes)?;
        if self.behind != Behind::Inside {
            self.behind = Behind::Between;
        }
        Ok(())
    }

    // The column of a comment on a line of its own: one of many lines stays where it is, as its lines do.
    fn comment_column(&self, site: &Site) -> usize {
        if line_feeds(site.token.bytes) > 0 {
            site.column
        } else if self.behind == Behind::Inside {
            self.statement.column(site.column)
        } else {
            self.indentation()
        }
    }

    fn lay_comment(&mut self, site: &Site) -> Result<(), AllocError> {
        if site.feeds == 0 && self.behind != Behind::Start {
            let blanks = site.token.before;
            self.writer
                .put(if blanks.is_empty() { b" " } else { blanks })?;
        } else {
            let column = self.comment_column(site);
            let lines = self.lines_before(site);
            self.writer.end_lines(lines)?;
            self.writer.indent(column)?;
            if self.behind != Behind::Inside {
                self.behind = Behind::Between;
            }
        }
        self.writer.put_token(self.hex, &site.token)
    }

    fn begin_statement(&mut self, site: &Site) -> Result<(), AllocError> {
        let column = self.indentation();
        let lines = self.lines_before(site);
        self.writer.end_lines(lines)?;
        self.writer.indent(column)?;
        self.statement = Statement::new(Moved {
            old: site.column,
            new: column,
        });
        Ok(())
    }

    fn begin_line(&mut self, site: &Site) -> Result<(), AllocError> {
        let column = self.statement.column(site.column);
        self.writer.end_lines(lines_as_written(site.feeds))?;
        self.writer.indent(column)
    }

    fn go_on(&mut self, site: &Site) -> Result<(), AllocError> {
        let Some(previous) = &self.previous else {
            return Ok(());
        };
        match gap_between(previous, &site.token, self.statement.is_in_cells()) {
            Gap::Nothing => Ok(()),
            Gap::Blank => self.writer.put(b" "),
            Gap::AsWritten => self.writer.put(site.token.before),
        }
    }

    // The white space before a token of a statement.
    fn lay_white(&mut self, site: &Site, sign: Sign) -> Result<(), AllocError> {
        if self.is_at_line_end() {
            if self.behind == Behind::Inside || sign == Sign::End {
                self.begin_line(site)
            } else {
                self.begin_statement(site)
            }
        } else if sign == Sign::End || sign == Sign::Open && self.behind == Behind::Inside {
            self.go_on(site)
        } else if self.behind != Behind::Inside {
            self.begin_statement(site)
        } else if site.feeds > 0 {
            self.begin_line(site)
        } else {
            self.go_on(site)
        }
    }

    // What stands behind a token of a statement. Behind `/include/` and a name no semicolon stands.
    fn behind_token(&self, site: &Site, sign: Sign) -> Behind {
        match (sign, &self.previous) {
            (Sign::Open, _) => Behind::Open,
            (Sign::End, _) => Behind::End,
            (Sign::Other, Some(previous))
                if site.token.kind == Kind::Quoted && previous.bytes == b"/include/".as_slice() => {
                Behind::End
            }
            _ => Behind::Inside,
        }
    }

    fn lay_part(&mut self, site: &Site) -> Result<(), LayoutError> {
        let sign = sign_of(&site.token);
        if sign == Sign::Close {
            self.depth.close(site.place)?;
            if self.behind != Behind::Start {
                self.behind = Behind::Open;
            }
        }
        self.lay_white(site, sign)?;
        let moved = Moved {
            old: site.column,
            new: self.writer.column(),
        };
        self.statement.take(sign, moved);
        self.writer.put_token(self.hex, &site.token)?;
        if sign == Sign::Open {
            self.depth.open(site.place)?;
        }
        self.behind = self.behind_token(site, sign);
        Ok(())
    }

    fn lay(&mut self, token: &Token<'t>, is_node: bool) -> Result<(), LayoutError> {
        let site = Site {
            token: *token,
            is_node,
            feeds: line_feeds(token.before),
            column: column_behind(self.column, token.before),
            place: self.place.saturating_add(token.before.len()),
        };
        match token.kind {
            Kind::Directive => self.lay_directive(&site)?,
            Kind::Comment | Kind::Remark => self.lay_comment(&site)?,
            Kind::Quoted | Kind::Word | Kind::Mark => self.lay_part(&site)?,
        }
        self.column = column_behind(site.column, token.bytes);
        self.place = site.place.saturating_add(token.bytes.len());
        self.previous = Some(*token);
        Ok(())
    }

    fn end(&mut self) -> Result<(), LayoutError> {
        self.depth.end()?;
        if self.previous.is_some() {
            self.writer.end_lines(1)?;
        }
        Ok(())
    }
}

/// The text of these tokens, laid out, or where its braces don't pair.
pub(crate) fn laid_out(
    alloc: Global,
    tokens: &[Token],
    style: Style,
) -> Result<Vec<u8>, LayoutError> {
    let is_node = nodes_of(alloc, tokens)?;
    let mut layout = Layout::new(alloc, style);
    for (token, is_node) in tokens.iter().zip(&is_node) {
        layout.lay(token, *is_node)?;
    }
    layout.end()?;
    Ok(layout.writer.into_text())
}
