//! The questions that are asked of a board: `plan`, `probe`, `why`, `needs`.

use crate::performing::Answer;
use bus_links::Strictness;
use dtman_diagnosis::{TextKind, driver_names};
use dtman_engine::Fault;
use dtman_host::{Failure, Host, Inputs, Planned, REFUSED, Surroundings, file_of, no_such};
use dtman_why::{Asked, BoardAnswer, Form, Rules, Timeout, board_answer, without_driver};
use dtman_words::{Board, Links, Picture};
use std::alloc::Global;
use std::thread::Threads;

// The plan file, or the picture that is asked for: one, and of a device only where there is a picture.
fn plan_asked<'a>(picture: Picture<'a>, late: bool) -> Result<Asked<'a>, Failure<'a>> {
    if late && (picture.dot || picture.html) {
        return Err(Failure::BadWord("--late", "not beside --dot or --html"));
    }
    let form = match (picture.dot, picture.html) {
        (true, true) => return Err(Failure::BadWord("--html", "not beside --dot")),
        (true, false) => Form::Graph,
        (false, true) => Form::Page,
        (false, false) => match picture.of {
            None if late => return Ok(Asked::LatePlan),
            None => return Ok(Asked::Plan),
            Some(_) => return Err(Failure::BadWord("--of", "wants --dot or --html")),
        },
    };
    let of = bytes_of(picture.of);
    Ok(Asked::Picture(dtman_why::Picture { form, of }))
}

/// The plan, as a plan file or as a picture.
pub fn planned<'a, S: Surroundings, E: Eprint, T: Threads + Sync>(
    host: &mut Host<'_, S, E, T>,
    board: Board<'a>,
    picture: Picture<'a>,
    late: bool,
) -> Result<Answer<'a>, Failure<'a>> {
    let asked = plan_asked(picture, late)?;
    let answer = answered(host, board, None, None, asked)?;
    Ok(Answer::Text(answer.text))
}

/// The end report of the devices, probed by the plan alone, without a driver where one is named.
pub fn probed<'a, S: Surroundings, E: Eprint, T: Threads + Sync>(
    host: &mut Host<'_, S, E, T>,
    board: Board<'a>,
    timeout: Option<&'a str>,
    workers: u8,
    without: Option<&'a str>,
) -> Result<Answer<'a>, Failure<'a>> {
    let asked = Asked::Report(workers as usize);
    let answer = answered(host, board, timeout, without, asked)?;
    Ok(Answer::Text(answer.text))
}

/// Why devices wait. Where that is asked for, a device that does is a failure once it is printed.
pub fn waiting<'a, S: Surroundings, E: Eprint, T: Threads + Sync>(
    host: &mut Host<'_, S, E, T>,
    board: Board<'a>,
    timeout: Option<&'a str>,
    path: Option<&'a str>,
    check: bool,
) -> Result<Answer<'a>, Failure<'a>> {
    let asked = Asked::Why(bytes_of(path));
    let BoardAnswer { text, any, .. } = answered(host, board, timeout, None, asked)?;
    if check && any {
        return Ok(Answer::Failing {
            text,
            status: REFUSED,
        });
    }
    Ok(Answer::Text(text))
}

/// What a device needs.
pub fn needed<'a, S: Surroundings, E: Eprint, T: Threads + Sync>(
    host: &mut Host<'_, S, E, T>,
    board: Board<'a>,
    path: &'a str,
) -> Result<Answer<'a>, Failure<'a>> {
    let answer = answered(host, board, None, None, Asked::Needs(path.as_bytes()))?;
    Ok(Answer::Text(answer.text))
}

// What is asked of a board. Entries that end their lists are told as warnings.
fn answered<'a, S: Surroundings, E: Eprint, T: Threads + Sync>(
    host: &mut Host<'_, S, E, T>,
    board: Board<'a>,
    timeout: Option<&'a str>,
    without: Option<&'a str>,
    asked: Asked<'_>,
) -> Result<BoardAnswer, Failure<'a>> {
    let links = rules_of(board.links, timeout)?;
    let blob = host.blob(board.blob)?;
    let drivers = host.text(board.drivers)?;
    let hasher = host.seed()?;
    let drivers = less(host.alloc, drivers, without)?;
    let (blob, drivers) = (file_of(board.blob, &blob), file_of(board.drivers, &drivers));
    match board_answer(
        host.threads,
        host.alloc,
        hasher,
        blob.bytes,
        drivers.bytes,
        links,
        asked,
    ) {
        Ok(answer) => {
            host.warn(answer.warnings.as_slice());
            Ok(answer)
        }
        Err(fault) => {
            let planned = Planned {
                blob,
                drivers,
                kind: kind_of(links),
                path: path_in(asked),
            };
            Err(host.refusal(fault, Inputs::Plan(planned)))
        }
    }
}

fn kind_of(links: Option<Rules>) -> TextKind {
    match links {
        Some(_) => TextKind::LinkDrivers,
        None => TextKind::Drivers,
    }
}

// The path of the device that is asked for.
fn path_in<'a>(asked: Asked<'a>) -> Option<&'a [u8]> {
    match asked {
        Asked::Plan | Asked::LatePlan | Asked::Report(_) => None,
        Asked::Picture(picture) => picture.of,
        Asked::Why(path) => path,
        Asked::Needs(path) => Some(path),
    }
}

// After how many seconds Linux 6.1 waits no longer for devices that no driver matches, where its command line says nothing.
const SECONDS: u32 = 10;

// When Linux waits no longer for devices that no driver matches.
fn timeout_of<'a>(word: Option<&'a str>) -> Result<Timeout, Failure<'a>> {
    match word {
        None => Ok(Timeout::Seconds(SECONDS)),
        Some("never") => Ok(Timeout::Never),
        Some(word) => match word.parse::<u32>() {
            Ok(0) | Err(_) => Err(Failure::BadWord(word, "no number of seconds, nor never")),
            Ok(seconds) => Ok(Timeout::Seconds(seconds)),
        },
    }
}

/// Whether the links of Linux are asked for, and by which rules.
fn rules_of<'a>(links: Links<'a>, timeout: Option<&'a str>) -> Result<Option<Rules>, Failure<'a>> {
    let strictness = if links.strict {
        Strictness::Strict
    } else {
        Strictness::Usual
    };
    let timeout = timeout_of(timeout)?;
    let rules = Rules {
        strictness,
        timeout,
    };
    match links.name {
        None => Ok(None),
        Some("linux") => Ok(Some(rules)),
        Some(name) => Err(Failure::NoSuchLinks(name)),
    }
}

// The words of a command line for a device, as bytes.
fn bytes_of<'a>(path: Option<&'a str>) -> Option<&'a [u8]> {
    match path {
        Some(path) => Some(path.as_bytes()),
        None => None,
    }
}

// A driver file, without the driver that is named.
fn less<'a>(
    alloc: Global,
    drivers: Vec<u8>,
    without: Option<&'a str>,
) -> Result<Vec<u8>, Failure<'a>> {
    let Some(name) = without else {
        return Ok(drivers);
    };
    match without_driver(alloc, drivers.as_slice(), name.as_bytes()) {
        Ok(Some(left)) => Ok(left),
        Ok(None) => Err(no_driver(alloc, drivers.as_slice(), name)),
        Err(_) => Err(Failure::Refused(Fault::no_memory())),
    }
}

// The driver file hasn't this driver.
fn no_driver<'a>(alloc: Global, drivers: &[u8], name: &'a str) -> Failure<'a> {
    let what = "the driver file has no driver";
    match driver_names(alloc, drivers) {
        Ok(names) => no_such(alloc, what, name, names.as_slice()),
        Err(_) => Failure::Refused(Fault::no_memory()),
    }
}
