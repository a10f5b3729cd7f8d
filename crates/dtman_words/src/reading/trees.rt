//! What is asked of a board's tree: `find`, `who`, `map`.
ghost use Rattle.std.specs.Prelude.{◌≡◌, IfSome, codes};
ghost use Rattle.clap.specs.Words.{found_of, rows_of};
ghost use Rattle.dtman_words.specs.CommandLine.{IsMet};

use crate::reading::text;
use crate::subcommand::Command;
use clap::ArgMatches;

pub fn find<'a>(given: &ArgMatches<'a>) -> Option<Command<'a>>
    ensures { IfSome result (λ command. IsMet command (codes "find") (rows_of (found_of given.now))) }
{
    let blob = given.get_str("BLOB")?;
    let what = given.get_str("WHAT")?;
    Some(Command::Find { blob, what })
}

pub fn who<'a>(given: &ArgMatches<'a>) -> Option<Command<'a>>
    ensures { IfSome result (λ command. IsMet command (codes "who") (rows_of (found_of given.now))) }
{
    let blob = given.get_str("BLOB")?;
    let path = given.get_str("PATH")?;
    let number = text(given, "NUMBER");
    Some(Command::Who { blob, path, number })
}

pub fn map<'a>(given: &ArgMatches<'a>) -> Option<Command<'a>>
    ensures { IfSome result (λ command. IsMet command (codes "map") (rows_of (found_of given.now))) }
{
    let blob = given.get_str("BLOB")?;
    Some(Command::Map { blob })
}
