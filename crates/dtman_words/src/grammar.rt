//! What the command line may say, as `clap` reads it.
ghost use Rattle.std.specs.Prelude.{◌≡◌, false, IfOk};
ghost use Rattle.clap.specs.Words.{App, Rule, app_of, new_app, rule_of, with_rule, with_subcommand};
ghost use Rattle.clap.specs.declared.builder.command.Command.TheViews.{out-Command};
ghost use Rattle.dtman_words.specs.Grammar as spec;
ghost use Rattle.dtman_words.specs.Making.{Makes};

mod authors;
mod trees;

use crate::arguments::{
    again, asked_number, asked_text, beside, counted, flag, lettered, listed, number, optional,
    others, repeated, required, several, text_beside,
};
use authors::add_authors;
use bus_manager::MAX_WORKERS;
use clap::{Arg, Command};
use std::alloc::{AllocError, Global};
use trees::add_trees;

/// What `--help` says behind the commands.
const STATUSES: &str = "\
Files: `-` is standard input, or standard output in the place of OUT; `./-` is a
file of that name.

Statuses: 0 done; 1 refused, with `error NUMBER NAME` and its place on standard
error (`dtman explain NUMBER` says more); 2 the command line is no command; 3 a
file can't be read or written (80, 81) or is too long (82), or nobody reads the
output any more, which isn't told.

With -v or --verbose before or behind any command, or DTMAN_VERBOSE=1 in the
environment, further lines of a refusal say where it is and of what. With --json
there, a refusal is an object of JSON in one line instead.

Limits: a source has at most 16,777,216 bytes; a blob and its printed source
have at most 268,435,456, and so does each text file of the bus; nodes are
nested at most 64 deep; a plan has at most 4,096 devices, a schedule at
most 500,000 begins.

With --links linux a plan has the device links that Linux 6.1 makes of a tree in
place of a table's, and a driver file may have lines `early COMPATIBLE..` (set
up before the bus) and `bus COMPATIBLE..` (makes its devices without a driver).

Workers are 1 to 64: of `probe` 4 where none are named; `replay` binds what is
left by workers only where they are named.

`dtman dtc`, `fdtoverlay`, `fdtget`, `fdtput` and `fdtdump`, or links of these
names to the program, take the words of dtc's package (`dtman dtc -h`).

Formats: a driver file's line is `driver NAME COMPATIBLE..` or `fail PATH`. A
plan's line is `PATH DRIVER ok|fail SUPPLIER..`, `PATH - - SUPPLIER..` (no
driver), `PATH ! - SUPPLIER..` (switched off) or `compatible PATH COMPATIBLE..`
(what a late driver may match). A schedule's is `begin PATH`, `finish PATH
settled`, `finish PATH missing SUPPLIER`, `abandon PATH` or `driver NAME
COMPATIBLE..` (a driver that comes late). Lines that begin with # are skipped.";

/// How values are written.
const TYPE: &str = "hh or b, h, l (1, 2, 4 bytes) and then s, i, u or x";

/// What the program takes.
pub fn grammar<'a>(alloc: Global) -> Result<Command<'a>, AllocError>
    ensures { IfOk result (λ c. (app_of c ≡ spec.dtman) × ((out-Command c).has_globals ≡ false)) }
{
    let app = add_subcommand(Ok(top(alloc)), compile(alloc));
    let app = add_subcommand(app, preprocess(alloc));
    let app = add_subcommand(app, overlay(alloc));
    let app = add_subcommand(app, dump(alloc));
    let app = add_subcommand(app, plan(alloc));
    let app = add_subcommand(app, replay(alloc));
    let app = add_subcommand(app, probe(alloc));
    let app = add_questions(alloc, app);
    let app = add_trees(alloc, app);
    let app = add_blobs(alloc, app);
    let app = add_authors(alloc, app);
    add_subcommand(app, explain(alloc))
}

/// Adds what is asked of the mistakes, the nodes and the values of blobs.
fn add_blobs<'a>(
    alloc: Global,
    app: Result<Command<'a>, AllocError>,
) -> Result<Command<'a>, AllocError>
    ensures { (before : App) → Makes app.entry before → Makes result (spec.with_blobs before) }
{
    let app = add_subcommand(app, check(alloc));
    let app = add_subcommand(app, diff(alloc));
    let app = add_subcommand(app, get(alloc));
    let app = add_subcommand(app, list(alloc));
    add_subcommand(app, set(alloc))
}

/// Adds the questions that are asked of a board's bus.
fn add_questions<'a>(
    alloc: Global,
    app: Result<Command<'a>, AllocError>,
) -> Result<Command<'a>, AllocError>
    ensures { (before : App) → Makes app.entry before → Makes result (spec.with_questions before) }
{
    let app = add_subcommand(app, why(alloc));
    let app = add_subcommand(app, needs(alloc));
    let app = add_subcommand(app, drivers(alloc));
    add_subcommand(app, trace(alloc))
}

/// Adds a subcommand, unless memory was refused. It takes what may be refused, so that its callers have one way out.
fn add_subcommand<'a>(
    command: Result<Command<'a>, AllocError>,
    subcommand: Result<Command<'a>, AllocError>,
) -> Result<Command<'a>, AllocError>
    ensures { (app : App) (other : App) → Makes command.entry app → Makes subcommand.entry other → Makes result (with_subcommand app other.top) }
{
    let command = command?;
    let subcommand = subcommand?;
    command.subcommand(subcommand)
}

/// Adds an argument, unless memory was refused.
fn add_argument<'a>(
    command: Result<Command<'a>, AllocError>,
    argument: Arg<'a>,
) -> Result<Command<'a>, AllocError>
    requires { argument.global ≡ false }
    ensures { (app : App) (rule : Rule) → Makes command.entry app → rule_of argument.entry ≡ rule → Makes result (with_rule app rule) }
{
    let command = command?;
    command.arg(argument)
}

/// Adds the options that say whose links count.
fn add_links<'a>(
    alloc: Global,
    command: Result<Command<'a>, AllocError>,
) -> Result<Command<'a>, AllocError>
    ensures { (app : App) → Makes command.entry app → Makes result (spec.with_links app) }
{
    let links = "By the links of `linux`";
    let strict = "Optional links count, too";
    let command = add_argument(command, asked_text(alloc, "links", "MODEL", links));
    let strict = beside(alloc, "strict", "links", strict)?;
    add_argument(command, strict)
}

/// Adds these, and the option that says when Linux waits no longer for devices without a driver.
fn add_timeout<'a>(
    alloc: Global,
    command: Result<Command<'a>, AllocError>,
) -> Result<Command<'a>, AllocError>
    ensures { (app : App) → Makes command.entry app → Makes result (spec.with_timeout app) }
{
    let about = "Ends waits for devices without driver (10), or never";
    let command = add_links(alloc, command);
    let timeout = text_beside(alloc, "timeout", "SECONDS", "links", about)?;
    add_argument(command, timeout)
}

/// Adds the options that say which checks are made.
fn add_selection<'a>(
    alloc: Global,
    command: Result<Command<'a>, AllocError>,
) -> Result<Command<'a>, AllocError>
    ensures { (app : App) → Makes command.entry app → Makes result (spec.with_selection app) }
{
    let warning = "This check warns; no-CHECK, it doesn't";
    let error = "This check is an error; no-CHECK, it is none";
    let command = add_argument(command, listed(alloc, "warning", 'W', "CHECK", warning));
    add_argument(command, listed(alloc, "error", 'E', "CHECK", error))
}

/// Adds the options that say how it is told what checks find.
fn add_telling<'a>(
    alloc: Global,
    command: Result<Command<'a>, AllocError>,
) -> Result<Command<'a>, AllocError>
    ensures { (app : App) → Makes command.entry app → Makes result (spec.with_telling app) }
{
    let quiet = "Leaves out warnings; twice, errors too";
    let json = "Prints an object of JSON a line";
    let command = add_argument(command, counted(alloc, "quiet", 'q', quiet));
    add_argument(command, flag(alloc, "json", json))
}

/// Adds what a source is preprocessed with.
fn add_definitions<'a>(
    alloc: Global,
    command: Result<Command<'a>, AllocError>,
) -> Result<Command<'a>, AllocError>
    ensures { (app : App) → Makes command.entry app → Makes result (spec.with_definitions app) }
{
    let folder = "Looks there for included files";
    let define = "Defines a macro, as 1 where no body is given";
    let before = "Reads the file before the source";
    let command = add_argument(command, listed(alloc, "include-dir", 'I', "DIR", folder));
    let command = add_argument(command, listed(alloc, "define", 'D', "NAME[=BODY]", define));
    add_argument(command, again(alloc, "preinclude", "FILE", before))
}

/// Adds what a source is preprocessed with, and whether it is.
fn add_preprocessing<'a>(
    alloc: Global,
    command: Result<Command<'a>, AllocError>,
) -> Result<Command<'a>, AllocError>
    ensures { (app : App) → Makes command.entry app → Makes result (spec.with_preprocessing app) }
{
    let always = "Preprocesses a source without directives, too";
    let never = "Doesn't preprocess";
    let command = add_definitions(alloc, command);
    let command = add_argument(command, flag(alloc, "cpp", always));
    add_argument(command, flag(alloc, "no-cpp", never))
}

/// Adds what is drawn.
fn add_picture<'a>(
    alloc: Global,
    command: Result<Command<'a>, AllocError>,
) -> Result<Command<'a>, AllocError>
    ensures { (app : App) → Makes command.entry app → Makes result (spec.with_picture app) }
{
    let dot = "Prints a Graphviz graph instead";
    let html = "Prints a page of HTML instead";
    let of = "Draws what the device needs and what needs it";
    let command = add_argument(command, flag(alloc, "dot", dot));
    let command = add_argument(command, flag(alloc, "html", html));
    add_argument(command, asked_text(alloc, "of", "PATH", of))
}

/// A command without arguments.
fn named<'a>(alloc: Global, name: &'a str, about: &'a str) -> Command<'a>
    ensures shape { app_of result ≡ new_app name.now }
    ensures globals { (out-Command result).has_globals ≡ false }
{
    Command::new(alloc, name).about(about)
}

/// The program without its subcommands.
fn top<'a>(alloc: Global) -> Command<'a>
    ensures shape { app_of result ≡ spec.top }
    ensures globals { (out-Command result).has_globals ≡ false }
{
    Command::new(alloc, "dtman")
        .about("Devicetree compiler and driver-binding manager")
        .version("0.3")
        .after_help(STATUSES)
        .subcommand_required(true)
}

fn compile<'a>(alloc: Global) -> Result<Command<'a>, AllocError>
    ensures { IfOk result (λ c. (app_of c ≡ spec.compile) × ((out-Command c).has_globals ≡ false)) }
{
    let about = "Compiles a source to a blob";
    let out = "The blob, which is written once all of it is ready";
    let symbols = "Adds the paths of all labelled nodes";
    let dtc = "Takes a source in dtc's language";
    let folder = "Looks there, too, for what the source takes in";
    let depfile = "Writes which files were read, as a rule for make";
    let include = repeated(alloc, "include", 'i', "DIR", "dtc", folder)?;
    let command = named(alloc, "compile", about).arg(required(alloc, "IN", "The source"));
    let command = add_argument(command, required(alloc, "OUT", out));
    let command = add_argument(command, flag(alloc, "symbols", symbols));
    let command = add_argument(command, flag(alloc, "dtc", dtc));
    let command = add_preprocessing(alloc, add_argument(command, include));
    add_argument(command, asked_text(alloc, "depfile", "FILE", depfile))
}

fn preprocess<'a>(alloc: Global) -> Result<Command<'a>, AllocError>
    ensures { IfOk result (λ c. (app_of c ≡ spec.preprocess) × ((out-Command c).has_globals ≡ false)) }
{
    let about = "Prints what the C preprocessor makes of a source";
    let command = named(alloc, "cpp", about).arg(required(alloc, "IN", "The source"));
    add_definitions(alloc, command)
}

fn overlay<'a>(alloc: Global) -> Result<Command<'a>, AllocError>
    ensures { IfOk result (λ c. (app_of c ≡ spec.overlay) × ((out-Command c).has_globals ≡ false)) }
{
    let about = "Applies an overlay to a base";
    let out = "The blob, which is written once all of it is ready";
    let command = named(alloc, "overlay", about).arg(required(alloc, "BASE", "The base's blob"));
    let command = add_argument(command, required(alloc, "OVERLAY", "The overlay's blob"));
    add_argument(command, required(alloc, "OUT", out))
}

fn dump<'a>(alloc: Global) -> Result<Command<'a>, AllocError>
    ensures { IfOk result (λ c. (app_of c ≡ spec.dump) × ((out-Command c).has_globals ≡ false)) }
{
    let about = "Prints a blob as a canonical source";
    let labels = "With labels, where the blob has __symbols__";
    let command = named(alloc, "dump", about).arg(required(alloc, "IN", "The blob"));
    add_argument(command, flag(alloc, "labels", labels))
}

fn plan<'a>(alloc: Global) -> Result<Command<'a>, AllocError>
    ensures { IfOk result (λ c. (app_of c ≡ spec.plan) × ((out-Command c).has_globals ≡ false)) }
{
    let about = "Prints the plan of a blob: its devices, their drivers and suppliers";
    let command = named(alloc, "plan", about).arg(required(alloc, "BLOB", "The blob"));
    let command = add_argument(command, required(alloc, "DRIVERS", "The driver file"));
    let command = add_links(alloc, add_picture(alloc, command));
    let late = "As the end of the timeout leaves it";
    let late = beside(alloc, "late", "links", late)?;
    add_argument(command, late)
}

fn replay<'a>(alloc: Global) -> Result<Command<'a>, AllocError>
    ensures { IfOk result (λ c. (app_of c ≡ spec.replay) × ((out-Command c).has_globals ≡ false)) }
{
    let about = "Replays a schedule of probe events over a plan and prints the report";
    let workers = "How many bind what the schedule leaves, 1 to 64";
    let most = MAX_WORKERS as u64;
    let command = named(alloc, "replay", about).arg(required(alloc, "PLAN", "The plan file"));
    let command = add_argument(
        command,
        required(alloc, "SCHEDULE", "The schedule of events"),
    );
    add_argument(command, asked_number(alloc, "workers", most, workers))
}

fn probe<'a>(alloc: Global) -> Result<Command<'a>, AllocError>
    ensures { IfOk result (λ c. (app_of c ≡ spec.probe) × ((out-Command c).has_globals ≡ false)) }
{
    let about = "Binds the devices of a blob by workers and prints the end report";
    let workers = "How many probe at once, 1 to 64";
    let most = MAX_WORKERS as u64;
    let without = "Leaves this driver of the file out";
    let command = named(alloc, "probe", about).arg(required(alloc, "BLOB", "The blob"));
    let command = add_argument(command, required(alloc, "DRIVERS", "The driver file"));
    let command = add_argument(command, number(alloc, "workers", most, "4", workers));
    let command = add_argument(command, asked_text(alloc, "without", "DRIVER", without));
    add_timeout(alloc, command)
}

fn why<'a>(alloc: Global) -> Result<Command<'a>, AllocError>
    ensures { IfOk result (λ c. (app_of c ≡ spec.why) × ((out-Command c).has_globals ≡ false)) }
{
    let about = "Says why devices wait, supplier by supplier, to the cause";
    let path = "The device; where none is named, each that waits";
    let check = "Ends with status 1 where a device is listed";
    let command = named(alloc, "why", about).arg(required(alloc, "BLOB", "The blob"));
    let command = add_argument(command, required(alloc, "DRIVERS", "The driver file"));
    let command = add_argument(command, optional(alloc, "PATH", path));
    let command = add_argument(command, flag(alloc, "check", check));
    add_timeout(alloc, command)
}

fn needs<'a>(alloc: Global) -> Result<Command<'a>, AllocError>
    ensures { IfOk result (λ c. (app_of c ≡ spec.needs) × ((out-Command c).has_globals ≡ false)) }
{
    let about = "Lists what a device needs, in an order that works, and the drivers";
    let command = named(alloc, "needs", about).arg(required(alloc, "BLOB", "The blob"));
    let command = add_argument(command, required(alloc, "DRIVERS", "The driver file"));
    let command = add_argument(command, required(alloc, "PATH", "The device"));
    add_links(alloc, command)
}

fn drivers<'a>(alloc: Global) -> Result<Command<'a>, AllocError>
    ensures { IfOk result (λ c. (app_of c ≡ spec.drivers) × ((out-Command c).has_globals ≡ false)) }
{
    let about = "Makes a driver file of what an installed Linux says of its modules";
    let aliases = required(alloc, "ALIASES", "The file modules.alias");
    let command = named(alloc, "drivers", about).arg(aliases);
    let builtin = "The file modules.builtin.modinfo";
    let command = add_argument(command, optional(alloc, "MODINFO", builtin));
    let kernel = "The kernel's image, for drivers that are built in";
    add_argument(command, asked_text(alloc, "kernel", "IMAGE", kernel))
}

fn trace<'a>(alloc: Global) -> Result<Command<'a>, AllocError>
    ensures { IfOk result (λ c. (app_of c ≡ spec.trace) × ((out-Command c).has_globals ≡ false)) }
{
    let about = "Makes a schedule of a kernel's log, to be replayed over the plan";
    let command = named(alloc, "trace", about).arg(required(alloc, "LOG", "The log"));
    add_argument(command, required(alloc, "PLAN", "The plan file"))
}

fn check<'a>(alloc: Global) -> Result<Command<'a>, AllocError>
    ensures { IfOk result (λ c. (app_of c ≡ spec.check) × ((out-Command c).has_globals ≡ false)) }
{
    let about = "Tells the mistakes in sources and blobs that dtc warns of";
    let dtc = "Takes a source in dtc's language, as always";
    let folder = "Looks there, too, for what the source takes in";
    let known = "What --learn wrote: tells misspelled properties";
    let learn = "Prints what these boards' nodes have, for --known";
    let command = named(alloc, "check", about).arg(several(alloc, "IN", "The sources or blobs"));
    let command = add_argument(command, flag(alloc, "dtc", dtc));
    let command = add_argument(command, listed(alloc, "include", 'i', "DIR", folder));
    let command = add_selection(alloc, command);
    let command = add_telling(alloc, command);
    let command = add_argument(command, asked_text(alloc, "known", "FILE", known));
    let command = add_argument(command, flag(alloc, "learn", learn));
    add_preprocessing(alloc, command)
}

fn diff<'a>(alloc: Global) -> Result<Command<'a>, AllocError>
    ensures { IfOk result (λ c. (app_of c ≡ spec.diff) × ((out-Command c).has_globals ≡ false)) }
{
    let about = "Compares the boards of two blobs, phandles by the paths they name";
    let order = "The order of nodes and properties counts, too";
    let command = named(alloc, "diff", about).arg(required(alloc, "FIRST", "The one blob"));
    let command = add_argument(command, required(alloc, "SECOND", "The other blob"));
    add_argument(command, flag(alloc, "order", order))
}

fn get<'a>(alloc: Global) -> Result<Command<'a>, AllocError>
    ensures { IfOk result (λ c. (app_of c ≡ spec.get) × ((out-Command c).has_globals ≡ false)) }
{
    let about = "Prints the value of a property, or all properties of a node";
    let property = "The property; where none is named, all of the node";
    let command = named(alloc, "get", about).arg(required(alloc, "BLOB", "The blob"));
    let command = add_argument(command, required(alloc, "PATH", "The node"));
    let command = add_argument(command, optional(alloc, "PROPERTY", property));
    add_argument(command, lettered(alloc, "type", 't', "TYPE", TYPE))
}

fn list<'a>(alloc: Global) -> Result<Command<'a>, AllocError>
    ensures { IfOk result (λ c. (app_of c ≡ spec.list) × ((out-Command c).has_globals ≡ false)) }
{
    let about = "Lists the properties of a node, and its children each with a slash";
    let path = "The node; where none is named, the root";
    let command = named(alloc, "ls", about).arg(required(alloc, "BLOB", "The blob"));
    add_argument(command, optional(alloc, "PATH", path))
}

fn set<'a>(alloc: Global) -> Result<Command<'a>, AllocError>
    ensures { IfOk result (λ c. (app_of c ≡ spec.set) × ((out-Command c).has_globals ≡ false)) }
{
    let about = "Sets a property of a node, all else as it was";
    let values = "Texts, or numbers if all are; none for an empty value";
    let out = "The new blob; where none is named, BLOB";
    let command = named(alloc, "set", about).arg(required(alloc, "BLOB", "The blob"));
    let command = add_argument(command, required(alloc, "PATH", "The node"));
    let command = add_argument(command, required(alloc, "PROPERTY", "The property"));
    let command = add_argument(command, others(alloc, "VALUE", values));
    let command = add_argument(command, lettered(alloc, "type", 't', "TYPE", TYPE));
    add_argument(command, lettered(alloc, "out", 'o', "OUT", out))
}

fn explain<'a>(alloc: Global) -> Result<Command<'a>, AllocError>
    ensures { IfOk result (λ c. (app_of c ≡ spec.explain) × ((out-Command c).has_globals ≡ false)) }
{
    let about = "Says what an error or a check means; alone it lists all errors";
    let word = "A number, an error's or a check's name, or `checks` for all such";
    named(alloc, "explain", about).arg(optional(alloc, "NUMBER", word))
}
