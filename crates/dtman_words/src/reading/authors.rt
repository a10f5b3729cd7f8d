//! What serves who writes sources: `fmt`, `lsp`.
ghost use Rattle.std.specs.Prelude.{◌≡◌, IfOk, IfSome, codes};
ghost use Rattle.clap.specs.Words.{found_of, rows_of};
ghost use Rattle.dtman_words.specs.CommandLine.{IsFormatting, IsMet};

use crate::reading::{all_texts, is_on, text};
use crate::subcommand::{Command, Formatting};
use clap::ArgMatches;
use std::alloc::{AllocError, Global};

pub fn format<'a>(given: &ArgMatches<'a>) -> Option<Command<'a>>
    ensures { IfSome result (λ command. IsMet command (codes "fmt") (rows_of (found_of given.now))) }
{
    let formatting = formatting(given)?;
    Some(Command::Format { formatting })
}

/// How a source is to be laid out.
fn formatting<'a>(given: &ArgMatches<'a>) -> Option<Formatting<'a>>
    ensures { IfSome result (λ formatting. IsFormatting formatting (rows_of (found_of given.now))) }
{
    Some(Formatting {
        source: given.get_str("IN")?,
        check: is_on(given, "check"),
        diff: is_on(given, "diff"),
        hex: is_on(given, "hex"),
        out: text(given, "out"),
    })
}

pub fn serve<'a>(alloc: Global, given: &ArgMatches<'a>) -> Result<Option<Command<'a>>, AllocError>
    ensures { IfOk result (λ met. IfSome met (λ command. IsMet command (codes "lsp") (rows_of (found_of given.now)))) }
{
    let folders = all_texts(alloc, given, "include")?;
    Ok(Some(Command::Serve { folders }))
}
