//! The command line.

use clap::error::ErrorKind;
use dtman_words::{
    Board, Choice, Command, Definitions, Inspection, Language, Links, Picture, command,
};
use std::alloc::Global;

/// The command that the words name, or the kind of their mistake.
fn read<'a>(alloc: Global, words: &'a [&'a str]) -> Result<Command<'a>, ErrorKind> {
    match command(alloc, words) {
        Ok(command) => Ok(command),
        Err(error) => Err(error.kind()),
    }
}

#[test]
fn reads_replay_and_dump(rt: HostRuntime) {
    let words = ["dtman", "replay", "board.plan", "boot.schedule"];
    let replay = read(rt.alloc(), words.as_slice());
    assert!(rt;
        matches!(
            replay,
            Ok(Command::Replay {
                plan: "board.plan",
                schedule: "boot.schedule",
                workers: None
            })
        )
    );
    let words = ["dtman", "dump", "board.dtb"];
    let dump = read(rt.alloc(), words.as_slice());
    assert!(rt;
        matches!(
            dump,
            Ok(Command::Dump {
                blob: "board.dtb",
                labels: false
            })
        )
    );
    let words = ["dtman", "dump", "--labels", "board.dtb"];
    let labelled = read(rt.alloc(), words.as_slice());
    assert!(rt;
        matches!(
            labelled,
            Ok(Command::Dump {
                blob: "board.dtb",
                labels: true
            })
        )
    );
}

#[test]
fn reads_overlay_and_explain(rt: HostRuntime) {
    let words = ["dtman", "overlay", "base.dtb", "over.dtbo", "out.dtb"];
    let overlay = read(rt.alloc(), words.as_slice());
    assert!(rt;
        matches!(
            overlay,
            Ok(Command::Overlay {
                base: "base.dtb",
                overlay: "over.dtbo",
                out: "out.dtb"
            })
        )
    );
    let words = ["dtman", "explain", "64"];
    let explain = read(rt.alloc(), words.as_slice());
    assert!(rt; matches!(explain, Ok(Command::Explain { number: "64" })));
    let words = ["dtman", "--version"];
    let version = read(rt.alloc(), words.as_slice());
    assert!(rt; matches!(version, Err(ErrorKind::DisplayVersion)));
    let words = ["dtman", "bind", "board.dtb"];
    let unknown = read(rt.alloc(), words.as_slice());
    assert!(rt; matches!(unknown, Err(ErrorKind::InvalidSubcommand)));
}

/// The folders that a command line names for dtc's language, or none where it doesn't ask for it.
fn folders_of<'a>(alloc: Global, words: &'a [&'a str]) -> Result<Option<Vec<&'a str>>, ErrorKind> {
    match read(alloc, words)? {
        Command::Compile { language, .. } => match language {
            Language::Dtc { folders } => Ok(Some(folders)),
            Language::Profile => Ok(None),
        },
        _ => Ok(None),
    }
}

#[test]
fn reads_compile_with_its_folders(rt: HostRuntime) {
    let words = [
        "dtman",
        "compile",
        "--dtc",
        "in",
        "-i",
        "a",
        "out",
        "--include=b",
    ];
    match folders_of(rt.alloc(), words.as_slice()) {
        Ok(Some(folders)) => assert_eq!(&rt; folders.as_slice(), ["a", "b"].as_slice()),
        _ => panic!(&rt; "no folders"),
    }
    let words = ["dtman", "compile", "in", "out"];
    let none = folders_of(rt.alloc(), words.as_slice());
    assert!(rt; matches!(none, Ok(None)));
    let words = ["dtman", "compile", "-i", "a", "in", "out"];
    let alone = folders_of(rt.alloc(), words.as_slice());
    assert!(rt; matches!(alone, Err(ErrorKind::MissingRequiredArgument)));
}

// The words behind `check` that a command line has, or the kind of its mistake.
fn inspection_of<'a>(
    alloc: Global,
    words: &'a [&'a str],
) -> Result<Option<Inspection<'a>>, ErrorKind> {
    match read(alloc, words)? {
        Command::Check { inspection } => Ok(Some(inspection)),
        _ => Ok(None),
    }
}

#[test]
fn reads_check_with_its_options(rt: HostRuntime) {
    let words = [
        "dtman",
        "check",
        "-Wreg_format",
        "a",
        "--dtc",
        "-W",
        "no-pci_bridge",
        "-E=alias_paths",
        "-qq",
        "-i",
        "include",
        "--known",
        "known",
        "b",
        "--json",
    ];
    let Ok(Some(inspection)) = inspection_of(rt.alloc(), words.as_slice()) else {
        panic!(&rt; "no check");
    };
    assert_eq!(&rt; inspection.inputs.as_slice(), ["a", "b"].as_slice());
    assert_eq!(&rt; inspection.folders.as_slice(), ["include"].as_slice());
    assert_eq!(&rt;
        inspection.warnings.as_slice(),
        ["reg_format", "no-pci_bridge"].as_slice()
    );
    assert_eq!(&rt; inspection.errors.as_slice(), ["alias_paths"].as_slice());
    assert_eq!(&rt; inspection.known, Some("known"));
    assert_eq!(&rt; inspection.quiet, 2);
    assert!(&rt; inspection.json);
    assert!(&rt; !inspection.learn);
}

#[test]
fn check_wants_an_input(rt: HostRuntime) {
    let words = ["dtman", "check", "--learn"];
    let alone = inspection_of(rt.alloc(), words.as_slice());
    assert!(&rt; matches!(alone, Err(ErrorKind::MissingRequiredArgument)));
}

#[test]
fn reads_plan_with_its_option(rt: HostRuntime) {
    let words = ["dtman", "plan", "board.dtb", "board.drivers"];
    let plan = read(rt.alloc(), words.as_slice());
    assert!(rt;
        matches!(
            plan,
            Ok(Command::Plan {
                board: Board {
                    blob: "board.dtb",
                    drivers: "board.drivers",
                    links: Links {
                        name: None,
                        strict: false
                    }
                },
                picture: Picture {
                    dot: false,
                    html: false,
                    of: None
                },
                late: false
            })
        )
    );
}

#[test]
fn reads_plan_as_a_picture(rt: HostRuntime) {
    let words = [
        "dtman",
        "plan",
        "--dot",
        "--of",
        "/a",
        "board.dtb",
        "board.drivers",
    ];
    let graph = read(rt.alloc(), words.as_slice());
    assert!(rt;
        matches!(
            graph,
            Ok(Command::Plan {
                board: Board {
                    blob: "board.dtb",
                    drivers: "board.drivers",
                    ..
                },
                picture: Picture {
                    dot: true,
                    html: false,
                    of: Some("/a")
                },
                late: false
            })
        )
    );
}

/// The workers that a command line names, if it does, or the kind of its mistake.
fn workers_of(alloc: Global, command: &str, option: (&str, &str)) -> Result<Option<u8>, ErrorKind> {
    let (name, number) = option;
    let words = ["dtman", command, "board", "beside", name, number];
    match read(alloc, words.as_slice())? {
        Command::Probe {
            board: Board {
                blob: "board",
                drivers: "beside",
                ..
            },
            workers,
            timeout: None,
            without: None,
        } => Ok(Some(workers)),
        Command::Replay {
            plan: "board",
            schedule: "beside",
            workers,
        } => Ok(workers),
        _ => Ok(None),
    }
}

const WORKERS: &[(&str, Result<Option<u8>, ErrorKind>)] = &[
    ("1", Ok(Some(1))),
    ("64", Ok(Some(64))),
    ("+4", Ok(Some(4))),
    ("04", Ok(Some(4))),
    ("0", Err(ErrorKind::ValueValidation)),
    ("65", Err(ErrorKind::ValueValidation)),
    ("many", Err(ErrorKind::ValueValidation)),
];

#[test]
fn reads_probe_with_its_workers(rt: HostRuntime) {
    let words = ["dtman", "probe", "board.dtb", "board.drivers"];
    let four = read(rt.alloc(), words.as_slice());
    assert!(rt; matches!(four, Ok(Command::Probe { workers: 4, .. })));
    for &(number, workers) in WORKERS {
        let read = workers_of(rt.alloc(), "probe", ("--workers", number));
        assert_eq!(rt; read, workers, "{number}");
    }
}

#[test]
fn reads_probe_without_a_driver(rt: HostRuntime) {
    let words = ["dtman", "probe", "b", "d", "--without", "ns"];
    let less = read(rt.alloc(), words.as_slice());
    assert!(rt;
        matches!(
            less,
            Ok(Command::Probe {
                without: Some("ns"),
                ..
            })
        )
    );
}

#[test]
fn reads_why(rt: HostRuntime) {
    let words = ["dtman", "why", "b", "d"];
    let all = read(rt.alloc(), words.as_slice());
    assert!(rt;
        matches!(
            all,
            Ok(Command::Why {
                path: None,
                check: false,
                ..
            })
        )
    );
    let words = ["dtman", "why", "b", "d", "/uart", "--check"];
    let one = read(rt.alloc(), words.as_slice());
    assert!(rt;
        matches!(
            one,
            Ok(Command::Why {
                path: Some("/uart"),
                check: true,
                ..
            })
        )
    );
}

#[test]
fn reads_a_timeout(rt: HostRuntime) {
    let words = [
        "dtman",
        "why",
        "b",
        "d",
        "--links=linux",
        "--timeout",
        "never",
    ];
    let never = read(rt.alloc(), words.as_slice());
    assert!(rt;
        matches!(
            never,
            Ok(Command::Why {
                timeout: Some("never"),
                ..
            })
        )
    );
    let words = ["dtman", "probe", "b", "d", "--timeout=30"];
    let alone = read(rt.alloc(), words.as_slice());
    assert!(rt; matches!(alone, Err(ErrorKind::MissingRequiredArgument)));
}

#[test]
fn reads_needs(rt: HostRuntime) {
    let words = ["dtman", "needs", "b", "d", "/uart"];
    let needs = read(rt.alloc(), words.as_slice());
    assert!(rt;
        matches!(
            needs,
            Ok(Command::Needs {
                board: Board {
                    blob: "b",
                    drivers: "d",
                    ..
                },
                path: "/uart"
            })
        )
    );
    let words = [
        "dtman",
        "needs",
        "b",
        "d",
        "/uart",
        "--links=linux",
        "--strict",
    ];
    let linux = read(rt.alloc(), words.as_slice());
    assert!(rt;
        matches!(
            linux,
            Ok(Command::Needs {
                board: Board {
                    links: Links {
                        name: Some("linux"),
                        strict: true
                    },
                    ..
                },
                ..
            })
        )
    );
    let words = ["dtman", "plan", "b", "d", "--strict"];
    let alone = read(rt.alloc(), words.as_slice());
    assert!(rt; matches!(alone, Err(ErrorKind::MissingRequiredArgument)));
}

#[test]
fn reads_drivers_and_trace(rt: HostRuntime) {
    let words = ["dtman", "drivers", "a", "m", "--kernel", "k"];
    let drivers = read(rt.alloc(), words.as_slice());
    assert!(rt;
        matches!(
            drivers,
            Ok(Command::Drivers {
                aliases: "a",
                builtin: Some("m"),
                kernel: Some("k")
            })
        )
    );
    let words = ["dtman", "trace", "l", "p"];
    let trace = read(rt.alloc(), words.as_slice());
    assert!(rt;
        matches!(
            trace,
            Ok(Command::Trace {
                log: "l",
                plan: "p"
            })
        )
    );
}

#[test]
fn reads_replay_with_its_workers(rt: HostRuntime) {
    for &(number, workers) in WORKERS {
        let read = workers_of(rt.alloc(), "replay", ("--workers", number));
        assert_eq!(rt; read, workers, "{number}");
    }
}

fn definitions_of<'a>(
    alloc: Global,
    words: &'a [&'a str],
) -> Result<Option<Definitions<'a>>, ErrorKind> {
    match read(alloc, words)? {
        Command::Preprocess { definitions, .. } => Ok(Some(definitions)),
        Command::Compile { preprocessing, .. } => match preprocessing.choice {
            Choice::Never => Ok(None),
            _ => Ok(Some(preprocessing.definitions)),
        },
        _ => Ok(None),
    }
}

#[test]
fn reads_what_a_source_is_preprocessed_with(rt: HostRuntime) {
    let words = [
        "dtman",
        "cpp",
        "-DA",
        "in",
        "-I",
        "a",
        "--preinclude",
        "first.h",
        "-D",
        "B=2 3",
        "--include-dir=b",
    ];
    let Ok(Some(definitions)) = definitions_of(rt.alloc(), words.as_slice()) else {
        panic!(&rt; "no definitions");
    };
    assert_eq!(&rt; definitions.folders.as_slice(), ["a", "b"].as_slice());
    assert_eq!(&rt; definitions.defines.as_slice(), ["A", "B=2 3"].as_slice());
    assert_eq!(&rt; definitions.preincluded.as_slice(), ["first.h"].as_slice());
    let words = ["dtman", "compile", "--cpp", "in", "out", "--no-cpp"];
    let never = definitions_of(rt.alloc(), words.as_slice());
    assert!(&rt; matches!(never, Ok(None)));
}
