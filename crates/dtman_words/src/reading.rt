//! The command line, read by `clap`.
ghost use Rattle.std.specs.Prelude.{◌≡◌, IfOk, IfSome, codes, map};
ghost use Rattle.clap.specs.Words.{app_of, count_of, first_of, found_of, rows_of};
ghost use Rattle.clap.specs.Simple.{subcommand_rows_of};
ghost use Rattle.dtman_words.specs.Grammar.{dtman};
ghost use Rattle.dtman_words.specs.CommandLine.{AreAsked, AreDefinitions, AreWorkers, IsBoard, IsChoice, IsInspection, IsMet, IsLanguage, IsLinks, IsPicture, IsPreprocessing, IsText, Meets, Says, is_on, texts_of};

mod authors;
mod trees;

use crate::grammar::grammar;
use crate::subcommand::{
    Board, Choice, Command, Definitions, Inspection, Language, Links, Picture, Preprocessing,
};
use authors::{format, serve};
use bus_manager::MAX_WORKERS;
use clap::error::ErrorKind;
use clap::{ArgMatches, Error};
use std::alloc::{AllocError, Global};
use trees::{find, map, who};

/// Reads the words of a command line, of which the first is the program's name.
pub fn command<'a>(alloc: Global, words: &'a [&'a str]) -> Result<Command<'a>, Error>
    ensures { IfOk result (λ command. Says command (map (λ word. word.now) words.entry.now)) }
{
    let mut grammar = grammar(alloc)?;
    read(alloc, &mut grammar, words)
}

/// Reads words by a grammar, which it borrows, so that no way out drops it.
fn read<'a>(
    alloc: Global,
    grammar: &mut clap::Command<'a>,
    words: &'a [&'a str],
) -> Result<Command<'a>, Error>
    requires { app_of grammar.old ≡ dtman }
    ensures { IfOk result (λ command. Says command (map (λ word. word.now) words.entry.now)) }
{
    let matches = grammar.try_get_matches_from_mut(words)?;
    match chosen(alloc, &matches)? {
        Some(command) => Ok(command),
        None => Err(no_subcommand(grammar)),
    }
}

/// The error of words without a subcommand, or the want of memory for it.
fn no_subcommand(grammar: &mut clap::Command<'_>) -> Error {
    match grammar.error(ErrorKind::MissingSubcommand, "a subcommand is required") {
        Ok(error) => error,
        Err(refused) => Error::from(refused),
    }
}

/// The subcommand that was met. A parse that succeeds has one, with its paths.
fn chosen<'a>(alloc: Global, matches: &ArgMatches<'a>) -> Result<Option<Command<'a>>, AllocError>
    ensures { IfOk result (λ chosen. IfSome chosen (λ command. Meets command (subcommand_rows_of matches.now))) }
{
    let Some((name, given)) = matches.subcommand() else {
        return Ok(None);
    };
    match name {
        "compile" => compile(alloc, given),
        "cpp" => preprocess(alloc, given),
        "overlay" => Ok(overlay(given)),
        "dump" => Ok(dump(given)),
        "plan" => Ok(plan(given)),
        "probe" => Ok(probe(given)),
        "replay" => Ok(replay(given)),
        "why" => Ok(why(given)),
        "needs" => Ok(needs(given)),
        "drivers" => Ok(drivers(given)),
        "trace" => Ok(trace(given)),
        "find" => Ok(find(given)),
        "who" => Ok(who(given)),
        "map" => Ok(map(given)),
        "check" => check(alloc, given),
        "diff" => Ok(diff(given)),
        "get" => Ok(get(given)),
        "ls" => Ok(list(given)),
        "set" => set(alloc, given),
        "fmt" => Ok(format(given)),
        "lsp" => serve(alloc, given),
        "explain" => Ok(Some(explain(given))),
        _ => Ok(None),
    }
}

fn compile<'a>(alloc: Global, given: &ArgMatches<'a>) -> Result<Option<Command<'a>>, AllocError>
    ensures { IfOk result (λ met. IfSome met (λ command. IsMet command (codes "compile") (rows_of (found_of given.now)))) }
{
    let language = language(alloc, given)?;
    let preprocessing = preprocessing(alloc, given)?;
    Ok(compile_by(language, preprocessing, given))
}

fn compile_by<'a>(
    language: Language<'a>,
    preprocessing: Preprocessing<'a>,
    given: &ArgMatches<'a>,
) -> Option<Command<'a>>
    requires language { IsLanguage language (rows_of (found_of given.now)) }
    requires preprocessing { IsPreprocessing preprocessing (rows_of (found_of given.now)) }
    ensures { IfSome result (λ command. IsMet command (codes "compile") (rows_of (found_of given.now))) }
{
    Some(Command::Compile {
        source: given.get_str("IN")?,
        out: given.get_str("OUT")?,
        symbols: is_on(given, "symbols"),
        language,
        preprocessing,
        depfile: text(given, "depfile"),
    })
}

fn preprocess<'a>(alloc: Global, given: &ArgMatches<'a>) -> Result<Option<Command<'a>>, AllocError>
    ensures { IfOk result (λ met. IfSome met (λ command. IsMet command (codes "cpp") (rows_of (found_of given.now)))) }
{
    let definitions = definitions(alloc, given)?;
    Ok(preprocess_by(definitions, given))
}

fn preprocess_by<'a>(definitions: Definitions<'a>, given: &ArgMatches<'a>) -> Option<Command<'a>>
    requires { AreDefinitions definitions (rows_of (found_of given.now)) }
    ensures { IfSome result (λ command. IsMet command (codes "cpp") (rows_of (found_of given.now))) }
{
    let source = given.get_str("IN")?;
    Some(Command::Preprocess {
        source,
        definitions,
    })
}

/// What a source is to be preprocessed with.
fn definitions<'a>(alloc: Global, given: &ArgMatches<'a>) -> Result<Definitions<'a>, AllocError>
    ensures { IfOk result (λ definitions. AreDefinitions definitions (rows_of (found_of given.now))) }
{
    let folders = all_texts(alloc, given, "include-dir")?;
    let defines = all_texts(alloc, given, "define")?;
    let preincluded = all_texts(alloc, given, "preinclude")?;
    Ok(Definitions {
        folders,
        defines,
        preincluded,
    })
}

/// Whether a source is to be preprocessed.
fn choice(given: &ArgMatches<'_>) -> Choice
    ensures { IsChoice result (rows_of (found_of given.now)) }
{
    if is_on(given, "no-cpp") {
        return Choice::Never;
    }
    if is_on(given, "cpp") {
        return Choice::Always;
    }
    Choice::AsNeeded
}

/// How a source is to be preprocessed, if it is.
fn preprocessing<'a>(alloc: Global, given: &ArgMatches<'a>) -> Result<Preprocessing<'a>, AllocError>
    ensures { IfOk result (λ preprocessing. IsPreprocessing preprocessing (rows_of (found_of given.now))) }
{
    let definitions = definitions(alloc, given)?;
    Ok(Preprocessing {
        choice: choice(given),
        definitions,
    })
}

/// The language that is asked for, with the folders of its options.
fn language<'a>(alloc: Global, given: &ArgMatches<'a>) -> Result<Language<'a>, AllocError>
    ensures { IfOk result (λ language. IsLanguage language (rows_of (found_of given.now))) }
{
    if !is_on(given, "dtc") {
        return Ok(Language::Profile);
    }
    let folders = all_texts(alloc, given, "include")?;
    Ok(Language::Dtc { folders })
}

/// The texts of an argument that may be given again and again.
fn all_texts<'a>(
    alloc: Global,
    given: &ArgMatches<'a>,
    name: &str,
) -> Result<Vec<&'a str>, AllocError>
    ensures { IfOk result (λ texts. map (λ text. text.now) texts.items ≡ texts_of name.now (rows_of (found_of given.now))) }
{
    match given.get_strs(name) {
        Some(texts) => Ok(Vec::from_slice(alloc, texts)?),
        None => Ok(Vec::new(alloc)),
    }
}

fn overlay<'a>(given: &ArgMatches<'a>) -> Option<Command<'a>>
    ensures { IfSome result (λ command. IsMet command (codes "overlay") (rows_of (found_of given.now))) }
{
    Some(Command::Overlay {
        base: given.get_str("BASE")?,
        overlay: given.get_str("OVERLAY")?,
        out: given.get_str("OUT")?,
    })
}

fn dump<'a>(given: &ArgMatches<'a>) -> Option<Command<'a>>
    ensures { IfSome result (λ command. IsMet command (codes "dump") (rows_of (found_of given.now))) }
{
    let blob = given.get_str("IN")?;
    let labels = is_on(given, "labels");
    Some(Command::Dump { blob, labels })
}

fn plan<'a>(given: &ArgMatches<'a>) -> Option<Command<'a>>
    ensures { IfSome result (λ command. IsMet command (codes "plan") (rows_of (found_of given.now))) }
{
    Some(Command::Plan {
        board: board(given)?,
        picture: picture(given),
        late: is_on(given, "late"),
    })
}

fn probe<'a>(given: &ArgMatches<'a>) -> Option<Command<'a>>
    ensures { IfSome result (λ command. IsMet command (codes "probe") (rows_of (found_of given.now))) }
{
    Some(Command::Probe {
        board: board(given)?,
        timeout: text(given, "timeout"),
        workers: workers(given)?,
        without: text(given, "without"),
    })
}

fn why<'a>(given: &ArgMatches<'a>) -> Option<Command<'a>>
    ensures { IfSome result (λ command. IsMet command (codes "why") (rows_of (found_of given.now))) }
{
    Some(Command::Why {
        board: board(given)?,
        timeout: text(given, "timeout"),
        path: text(given, "PATH"),
        check: is_on(given, "check"),
    })
}

fn needs<'a>(given: &ArgMatches<'a>) -> Option<Command<'a>>
    ensures { IfSome result (λ command. IsMet command (codes "needs") (rows_of (found_of given.now))) }
{
    let board = board(given)?;
    let path = given.get_str("PATH")?;
    Some(Command::Needs { board, path })
}

fn drivers<'a>(given: &ArgMatches<'a>) -> Option<Command<'a>>
    ensures { IfSome result (λ command. IsMet command (codes "drivers") (rows_of (found_of given.now))) }
{
    Some(Command::Drivers {
        aliases: given.get_str("ALIASES")?,
        builtin: text(given, "MODINFO"),
        kernel: text(given, "kernel"),
    })
}

fn trace<'a>(given: &ArgMatches<'a>) -> Option<Command<'a>>
    ensures { IfSome result (λ command. IsMet command (codes "trace") (rows_of (found_of given.now))) }
{
    let log = given.get_str("LOG")?;
    let plan = given.get_str("PLAN")?;
    Some(Command::Trace { log, plan })
}

fn replay<'a>(given: &ArgMatches<'a>) -> Option<Command<'a>>
    ensures { IfSome result (λ command. IsMet command (codes "replay") (rows_of (found_of given.now))) }
{
    Some(Command::Replay {
        plan: given.get_str("PLAN")?,
        schedule: given.get_str("SCHEDULE")?,
        workers: asked_workers(given)?.number,
    })
}

fn check<'a>(alloc: Global, given: &ArgMatches<'a>) -> Result<Option<Command<'a>>, AllocError>
    ensures { IfOk result (λ met. IfSome met (λ command. IsMet command (codes "check") (rows_of (found_of given.now)))) }
{
    let inspection = inspection(alloc, given)?;
    Ok(Some(Command::Check { inspection }))
}

/// What is to be checked, and how it is told.
fn inspection<'a>(alloc: Global, given: &ArgMatches<'a>) -> Result<Inspection<'a>, AllocError>
    ensures { IfOk result (λ inspection. IsInspection inspection (rows_of (found_of given.now))) }
{
    let inputs = all_texts(alloc, given, "IN")?;
    let folders = all_texts(alloc, given, "include")?;
    let preprocessing = preprocessing(alloc, given)?;
    let warnings = all_texts(alloc, given, "warning")?;
    let errors = all_texts(alloc, given, "error")?;
    Ok(Inspection {
        inputs,
        folders,
        preprocessing,
        warnings,
        errors,
        known: text(given, "known"),
        quiet: given.get_count("quiet"),
        json: is_on(given, "json"),
        learn: is_on(given, "learn"),
    })
}

fn diff<'a>(given: &ArgMatches<'a>) -> Option<Command<'a>>
    ensures { IfSome result (λ command. IsMet command (codes "diff") (rows_of (found_of given.now))) }
{
    let first = given.get_str("FIRST")?;
    let second = given.get_str("SECOND")?;
    let order = is_on(given, "order");
    Some(Command::Diff {
        first,
        second,
        order,
    })
}

fn get<'a>(given: &ArgMatches<'a>) -> Option<Command<'a>>
    ensures { IfSome result (λ command. IsMet command (codes "get") (rows_of (found_of given.now))) }
{
    let blob = given.get_str("BLOB")?;
    let path = given.get_str("PATH")?;
    let property = text(given, "PROPERTY");
    let kind = text(given, "type");
    Some(Command::Get {
        blob,
        path,
        property,
        kind,
    })
}

fn list<'a>(given: &ArgMatches<'a>) -> Option<Command<'a>>
    ensures { IfSome result (λ command. IsMet command (codes "ls") (rows_of (found_of given.now))) }
{
    let blob = given.get_str("BLOB")?;
    let path = text(given, "PATH");
    Some(Command::Listing { blob, path })
}

fn set<'a>(alloc: Global, given: &ArgMatches<'a>) -> Result<Option<Command<'a>>, AllocError>
    ensures { IfOk result (λ met. IfSome met (λ command. IsMet command (codes "set") (rows_of (found_of given.now)))) }
{
    let values = all_texts(alloc, given, "VALUE")?;
    Ok(set_to(values, given))
}

fn set_to<'a>(values: Vec<&'a str>, given: &ArgMatches<'a>) -> Option<Command<'a>>
    requires { map (λ word. word.now) values.items ≡ texts_of (codes "VALUE") (rows_of (found_of given.now)) }
    ensures { IfSome result (λ command. IsMet command (codes "set") (rows_of (found_of given.now))) }
{
    let blob = given.get_str("BLOB")?;
    let path = given.get_str("PATH")?;
    let property = given.get_str("PROPERTY")?;
    let kind = text(given, "type");
    let out = text(given, "out");
    Some(Command::Set {
        blob,
        path,
        property,
        values,
        kind,
        out,
    })
}

fn explain<'a>(given: &ArgMatches<'a>) -> Command<'a>
    ensures { IsMet result (codes "explain") (rows_of (found_of given.now)) }
{
    match given.get_str("NUMBER") {
        Some(number) => Command::Explain { number },
        None => Command::Explain { number: "all" },
    }
}

/// The board that is asked about.
fn board<'a>(given: &ArgMatches<'a>) -> Option<Board<'a>>
    ensures { IfSome result (λ board. IsBoard board (rows_of (found_of given.now))) }
{
    Some(Board {
        blob: given.get_str("BLOB")?,
        drivers: given.get_str("DRIVERS")?,
        links: links(given),
    })
}

/// What is to be drawn.
fn picture<'a>(given: &ArgMatches<'a>) -> Picture<'a>
    ensures { IsPicture result (rows_of (found_of given.now)) }
{
    Picture {
        dot: is_on(given, "dot"),
        html: is_on(given, "html"),
        of: text(given, "of"),
    }
}

/// Whose links are asked for.
fn links<'a>(given: &ArgMatches<'a>) -> Links<'a>
    ensures { IsLinks result (rows_of (found_of given.now)) }
{
    Links {
        name: text(given, "links"),
        strict: is_on(given, "strict"),
    }
}

/// The text of an argument that may be left out.
fn text<'a>(given: &ArgMatches<'a>, name: &str) -> Option<&'a str>
    ensures { IsText result name.now (rows_of (found_of given.now)) }
{
    match given.get_str(name) {
        Some(text) => Some(text),
        None => None,
    }
}

/// Whether an option without a value was given.
fn is_on(given: &ArgMatches<'_>, name: &str) -> bool
    ensures { result ≡ is_on (first_of name.now (rows_of (found_of given.now))) }
{
    match given.get_str(name) {
        Some(text) => text == "true",
        None => false,
    }
}

/// The number of workers. That it is in the range of the grammar is tested here once more, as the range of an option is
/// said of a parse and not of what its getters answer.
fn workers(given: &ArgMatches<'_>) -> Option<u8>
    ensures { IfSome result (λ number. AreWorkers number (rows_of (found_of given.now))) }
{
    let number = given.get_one::<u8>("workers")?;
    if number < 1 {
        return None;
    }
    if number as usize > MAX_WORKERS {
        return None;
    }
    Some(number)
}

/// The workers that an option asks for, if it is there.
#[derive(Clone, Copy)]
struct Asked {
    number: Option<u8>,
}

fn asked_workers(given: &ArgMatches<'_>) -> Option<Asked>
    ensures { IfSome result (λ asked. AreAsked asked.number (rows_of (found_of given.now))) }
{
    let number = match given.get_str("workers") {
        None => None,
        Some(_) => Some(workers(given)?),
    };
    Some(Asked { number })
}
