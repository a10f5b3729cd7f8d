//! The program in the place of those of dtc's package: by `dtman dtc ..` and the like, or by a link of that name.
ghost use Rattle.std.specs.Prelude.{◌≡◌, false};

use dtman_dtc::{run_dtc, run_fdtoverlay};
use dtman_engine::Channel;
use dtman_fdt::{run_fdtdump, run_fdtget, run_fdtput};
use dtman_host::{Host, Surroundings};

/// A program in whose place this one stands.
#[derive(Clone, Copy, Debug, PartialEq, Eq)]
pub enum Tool {
    Dtc,
    Fdtoverlay,
    Fdtget,
    Fdtput,
    Fdtdump,
}

/// The tool that the program's name or its first word names, and the words behind that.
pub fn tool_in<'a, 'b>(words: &'b [&'a str]) -> Option<(Tool, &'b [&'a str])> {
    let (program, rest) = words.split_first()?;
    let name = match program.rsplit_once("/") {
        Some((_, name)) => name,
        None => *program,
    };
    if let Some(tool) = tool_of(name) {
        return Some((tool, rest));
    }
    let (first, rest) = rest.split_first()?;
    Some((tool_of(*first)?, rest))
}

fn tool_of(name: &str) -> Option<Tool> {
    match name {
        "dtc" => Some(Tool::Dtc),
        "fdtoverlay" => Some(Tool::Fdtoverlay),
        "fdtget" => Some(Tool::Fdtget),
        "fdtput" => Some(Tool::Fdtput),
        "fdtdump" => Some(Tool::Fdtdump),
        _ => None,
    }
}

/// Runs a tool by the words behind its name, and answers its exit status.
pub fn run_tool<S: Surroundings, O: Channel, E: Eprint, T>(
    host: &mut Host<'_, S, E, T>,
    output: &mut O,
    tool: Tool,
    words: &[&str],
) -> u8
    requires { O.has_failed output.old ≡ false }
{
    match tool {
        Tool::Dtc => run_dtc(host, output, words),
        Tool::Fdtoverlay => run_fdtoverlay(host, output, words),
        Tool::Fdtget => run_fdtget(host, output, words),
        Tool::Fdtput => run_fdtput(host, output, words),
        Tool::Fdtdump => run_fdtdump(host, output, words),
    }
}
