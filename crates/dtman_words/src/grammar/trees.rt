//! What may be asked of a board's tree: `find`, `who`, `map`.
ghost use Rattle.std.specs.Prelude.{◌≡◌, false, IfOk};
ghost use Rattle.clap.specs.Words.{App, app_of};
ghost use Rattle.clap.specs.declared.builder.command.Command.TheViews.{out-Command};
ghost use Rattle.dtman_words.specs.Grammar as spec;
ghost use Rattle.dtman_words.specs.Making.{Makes};

use crate::arguments::{optional, required};
use crate::grammar::{add_argument, add_subcommand, named};
use clap::Command;
use std::alloc::{AllocError, Global};

/// Adds the questions that are asked of a board's tree.
pub fn add_trees<'a>(
    alloc: Global,
    app: Result<Command<'a>, AllocError>,
) -> Result<Command<'a>, AllocError>
    ensures { (before : App) → Makes app.entry before → Makes result (spec.with_trees before) }
{
    let app = add_subcommand(app, find(alloc));
    let app = add_subcommand(app, who(alloc));
    add_subcommand(app, map(alloc))
}

fn find<'a>(alloc: Global) -> Result<Command<'a>, AllocError>
    ensures { IfOk result (λ c. (app_of c ≡ spec.find) × ((out-Command c).has_globals ≡ false)) }
{
    let about = "Lists the nodes that have a string, a property or a value";
    let what = "A compatible string, PROPERTY or PROPERTY=VALUE";
    let command = named(alloc, "find", about).arg(required(alloc, "BLOB", "The blob"));
    add_argument(command, required(alloc, "WHAT", what))
}

fn who<'a>(alloc: Global) -> Result<Command<'a>, AllocError>
    ensures { IfOk result (λ c. (app_of c ≡ spec.who) × ((out-Command c).has_globals ≡ false)) }
{
    let about = "Says who uses a node, and which line of it";
    let path = "The node, or an alias of it";
    let number = "The line: a GPIO, an interrupt, a channel, a clock";
    let command = named(alloc, "who", about).arg(required(alloc, "BLOB", "The blob"));
    let command = add_argument(command, required(alloc, "PATH", path));
    add_argument(command, optional(alloc, "NUMBER", number))
}

fn map<'a>(alloc: Global) -> Result<Command<'a>, AllocError>
    ensures { IfOk result (λ c. (app_of c ≡ spec.map) × ((out-Command c).has_globals ≡ false)) }
{
    let about = "Prints the memory map of a board, with what overlaps";
    named(alloc, "map", about).arg(required(alloc, "BLOB", "The blob"))
}
