//! What serves who writes sources: `fmt`, `lsp`.
ghost use Rattle.std.specs.Prelude.{◌≡◌, false, IfOk};
ghost use Rattle.clap.specs.Words.{App, app_of};
ghost use Rattle.clap.specs.declared.builder.command.Command.TheViews.{out-Command};
ghost use Rattle.dtman_words.specs.Grammar as spec;
ghost use Rattle.dtman_words.specs.Making.{Makes};

use crate::arguments::{flag, lettered, listed, required};
use crate::grammar::{add_argument, add_subcommand, named};
use clap::Command;
use std::alloc::{AllocError, Global};

/// Adds what serves who writes sources.
pub fn add_authors<'a>(
    alloc: Global,
    app: Result<Command<'a>, AllocError>,
) -> Result<Command<'a>, AllocError>
    ensures { (before : App) → Makes app.entry before → Makes result (spec.with_authors before) }
{
    let app = add_subcommand(app, format(alloc));
    add_subcommand(app, serve(alloc))
}

fn format<'a>(alloc: Global) -> Result<Command<'a>, AllocError>
    ensures { IfOk result (λ c. (app_of c ≡ spec.format) × ((out-Command c).has_globals ≡ false)) }
{
    let about = "Prints a source in the kernel's style, macros and all";
    let hex = "Writes hexadecimal numbers in small letters";
    let check = "Prints the path alone, of a source that isn't so yet";
    let diff = "Prints the lines that would change alone";
    let out = "Writes it there in place of printing it";
    let command = named(alloc, "fmt", about).arg(required(alloc, "IN", "The source"));
    let command = add_argument(command, flag(alloc, "hex", hex));
    let command = add_argument(command, flag(alloc, "check", check));
    let command = add_argument(command, flag(alloc, "diff", diff));
    add_argument(command, lettered(alloc, "out", 'o', "OUT", out))
}

fn serve<'a>(alloc: Global) -> Result<Command<'a>, AllocError>
    ensures { IfOk result (λ c. (app_of c ≡ spec.serve) × ((out-Command c).has_globals ≡ false)) }
{
    let about = "Serves an editor over standard input and output";
    let folder = "Looks there, too, for included files";
    let folders = listed(alloc, "include", 'I', "DIR", folder);
    named(alloc, "lsp", about).arg(folders)
}
