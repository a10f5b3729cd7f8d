//! What the command line asks for.

/// In which language a source is.
#[derive(Drop)]
pub enum Language<'a> {
    /// The profile, which takes nothing in.
    Profile,
    /// dtc's. Files that the source takes in are looked for in these folders, behind the folder of the file that names them.
    Dtc { folders: Vec<&'a str> },
}

/// Whose device links count: those of Linux, which are asked for by that name, or else those of the table of suppliers.
#[derive(Clone, Copy)]
pub struct Links<'a> {
    pub name: Option<&'a str>,
    /// Optional bindings count, too.
    pub strict: bool,
}

/// The files of a board, and whose links count.
#[derive(Clone, Copy)]
pub struct Board<'a> {
    pub blob: &'a str,
    pub drivers: &'a str,
    pub links: Links<'a>,
}

/// What is drawn of a board in place of its plan file.
#[derive(Clone, Copy)]
pub struct Picture<'a> {
    /// A Graphviz graph.
    pub dot: bool,
    /// A page of HTML.
    pub html: bool,
    /// The device that it is of, or else the board.
    pub of: Option<&'a str>,
}

/// What a source is preprocessed with.
#[derive(Drop)]
pub struct Definitions<'a> {
    /// Where included files are looked for, behind the folder of the file that names them.
    pub folders: Vec<&'a str>,
    /// `NAME`, which is then 1, or `NAME=BODY`.
    pub defines: Vec<&'a str>,
    /// Files that are read before the source.
    pub preincluded: Vec<&'a str>,
}

/// Whether a source goes through the preprocessor.
#[derive(Clone, Copy, PartialEq, Eq)]
pub enum Choice {
    /// Where it has a directive, or something is there to preprocess it with.
    AsNeeded,
    Always,
    Never,
}

/// How a source is preprocessed, if it is.
#[derive(Drop)]
pub struct Preprocessing<'a> {
    pub choice: Choice,
    pub definitions: Definitions<'a>,
}

/// What is checked, and how its mistakes are told.
#[derive(Drop)]
pub struct Inspection<'a> {
    pub inputs: Vec<&'a str>,
    /// Where files are looked for that sources take in, behind the folder of the file that names them.
    pub folders: Vec<&'a str>,
    pub preprocessing: Preprocessing<'a>,
    /// The checks that are to warn, each by its name, or with `no-` before it those that aren't.
    pub warnings: Vec<&'a str>,
    /// The same of those that are errors.
    pub errors: Vec<&'a str>,
    /// What boards have that are known to be right.
    pub known: Option<&'a str>,
    /// How often it is asked to say less.
    pub quiet: u8,
    /// Objects of JSON in place of lines.
    pub json: bool,
    /// What the inputs teach, in place of their mistakes.
    pub learn: bool,
}

/// How a source is laid out, and what becomes of it: where nothing is said, it is printed.
#[derive(Clone, Copy)]
pub struct Formatting<'a> {
    pub source: &'a str,
    /// Says alone whether the source is laid out so already.
    pub check: bool,
    /// Prints the lines that differ.
    pub diff: bool,
    /// Hex numbers are spelled in lower case.
    pub hex: bool,
    /// Where it is written, in place of being printed.
    pub out: Option<&'a str>,
}

/// A subcommand with its paths and options.
#[derive(Drop)]
pub enum Command<'a> {
    Compile {
        source: &'a str,
        out: &'a str,
        /// Add the node of symbols.
        symbols: bool,
        language: Language<'a>,
        preprocessing: Preprocessing<'a>,
        /// Where the rule of make is written that names all files which were read.
        depfile: Option<&'a str>,
    },
    Preprocess {
        source: &'a str,
        definitions: Definitions<'a>,
    },
    Overlay {
        base: &'a str,
        overlay: &'a str,
        out: &'a str,
    },
    Dump {
        blob: &'a str,
        /// Labels stand before their nodes, and where these are named.
        labels: bool,
    },
    Plan {
        board: Board<'a>,
        picture: Picture<'a>,
        /// As the end of Linux's timeout leaves it.
        late: bool,
    },
    Replay {
        plan: &'a str,
        schedule: &'a str,
        /// From 1 to `MAX_WORKERS`, where the run is to go on by workers.
        workers: Option<u8>,
    },
    Probe {
        board: Board<'a>,
        /// After how many seconds Linux waits no longer for devices without a driver, or `never`.
        timeout: Option<&'a str>,
        /// From 1 to `MAX_WORKERS`.
        workers: u8,
        /// A driver of the file that never comes.
        without: Option<&'a str>,
    },
    Why {
        board: Board<'a>,
        /// As in `Probe`.
        timeout: Option<&'a str>,
        /// The device that is asked for, or else each that waits.
        path: Option<&'a str>,
        /// End with another status where a device is listed.
        check: bool,
    },
    Needs {
        board: Board<'a>,
        path: &'a str,
    },
    Drivers {
        aliases: &'a str,
        builtin: Option<&'a str>,
        /// The image of the kernel whose tables are read.
        kernel: Option<&'a str>,
    },
    Trace {
        log: &'a str,
        plan: &'a str,
    },
    Find {
        blob: &'a str,
        /// A compatible string, a property, or a property with a value.
        what: &'a str,
    },
    Who {
        blob: &'a str,
        /// The node, or an alias of it.
        path: &'a str,
        /// The line that is asked for, or else all.
        number: Option<&'a str>,
    },
    Map {
        blob: &'a str,
    },
    Check {
        inspection: Inspection<'a>,
    },
    Format {
        formatting: Formatting<'a>,
    },
    /// A language server over standard input and output.
    Serve {
        /// Where included files are looked for.
        folders: Vec<&'a str>,
    },
    Diff {
        first: &'a str,
        second: &'a str,
        /// The order of nodes and properties counts.
        order: bool,
    },
    Get {
        blob: &'a str,
        path: &'a str,
        /// The property that is asked for, or else all of the node.
        property: Option<&'a str>,
        /// How its value is written.
        kind: Option<&'a str>,
    },
    Listing {
        blob: &'a str,
        path: Option<&'a str>,
    },
    Set {
        blob: &'a str,
        path: &'a str,
        property: &'a str,
        values: Vec<&'a str>,
        /// How they are written.
        kind: Option<&'a str>,
        /// The new blob, or else the one that is read.
        out: Option<&'a str>,
    },
    Explain {
        number: &'a str,
    },
}
