//! `fdtdump`: the words of a blob as they stand there, up to the first that is broken.
ghost use Rattle.std.specs.Prelude.{◌≡◌, false, OnOk};

use crate::reports::{Failure, fail, put, read_file};
use crate::words::{Choice, read_words};
use dtman_blobs::are_texts;
use dtman_engine::Channel;
use dtman_host::{DONE, DTC_VERSION, Host, Surroundings};
use dtman_layout::{aligned, bytes_at, text_at, word_at};
use std::alloc::{AllocError, Global};

const USAGE: &[u8] = b"Usage: fdtdump [options] <file>

Options: -[dshV]
  -d, --debug   tells where each token, string and value stands
  -s, --scan    looks for a blob inside of the file
  -h, --help    this text
  -V, --version the version\n";

const CHOICES: &[Choice] = &[
    Choice {
        letter: "d",
        long: "debug",
        takes: false,
    },
    Choice {
        letter: "s",
        long: "scan",
        takes: false,
    },
    Choice {
        letter: "h",
        long: "help",
        takes: false,
    },
    Choice {
        letter: "V",
        long: "version",
        takes: false,
    },
];

/// The magic number, as bytes.
const MAGIC: &[u8] = b"\xd0\x0d\xfe\xed";

const BEGIN_NODE: u32 = 1;

const END_NODE: u32 = 2;

const PROPERTY: u32 = 3;

const NOP: u32 = 4;

const END: u32 = 9;

/// How many bytes of a dump are printed at once: a blob's names and depths may come to many times its size.
const PIECE: usize = 65_536;

/// A dump so far.
#[derive(Drop)]
struct Dumped<'a> {
    bytes: &'a [u8],
    strings_at: usize,
    wants_places: bool,
    depth: usize,
    /// What isn't printed yet.
    out: Vec<u8>,
    /// What is told beside it.
    told: Vec<u8>,
}

/// Runs fdtdump by the words behind its name. Answers the exit status.
pub fn run_fdtdump<S: Surroundings, O: Channel, E: Eprint, T>(
    host: &mut Host<'_, S, E, T>,
    output: &mut O,
    words: &[&str],
) -> u8
    requires { O.has_failed output.old ≡ false }
{
    match dump(host, output, words) {
        Ok(()) => DONE,
        Err(failure) => fail(host, USAGE, failure),
    }
}

fn dump<'a, S: Surroundings, O: Channel, E: Eprint, T>(
    host: &mut Host<'_, S, E, T>,
    output: &mut O,
    words: &[&'a str],
) -> Result<(), Failure<'a>>
    requires { O.has_failed output.old ≡ false }
{
    let alloc = host.alloc;
    let words = read_words(alloc, CHOICES, words)?;
    if words.has("h") {
        return put(output, USAGE);
    }
    if words.has("V") {
        return put(output, DTC_VERSION);
    }
    let [path] = words.others.as_slice() else {
        return Err(Failure::Usage("missing input filename"));
    };
    let bytes = read_file(host, *path)?;
    let mut head = Vec::new(alloc);
    let blob = if words.has("s") {
        found(alloc, &mut head, *path, bytes.as_slice())?
    } else {
        bytes.as_slice()
    };
    if !blob.starts_with(MAGIC) || blob.len() < 40 {
        return Err(Failure::NoHeader(*path));
    }
    let mut dumped = dump_of(alloc, head, blob, words.has("d"))?;
    dumped.print_structure(alloc, output)?;
    host.tell(dumped.told.as_slice());
    Ok(())
}

// The file from its first magic number on, whose place is put first.
fn found<'a, 'b>(
    alloc: Global,
    head: &mut Vec<u8>,
    path: &'a str,
    bytes: &'b [u8],
) -> Result<&'b [u8], Failure<'a>> {
    let place = bytes.windows(4).position(|window| window == MAGIC);
    match place {
        Some(place) if place < bytes.len() => {
            let hex = if place == 0 { "" } else { "0x" };
            add_text(
                head,
                format!(in alloc; "{path}: found fdt at offset {hex}{place:x}\n"),
            )?;
            Ok(&bytes[place..])
        }
        _ => Err(Failure::NoMagic(path)),
    }
}

// A dump up to the structure block.
fn dump_of(
    alloc: Global,
    head: Vec<u8>,
    blob: &[u8],
    wants_places: bool,
) -> Result<Dumped<'_>, AllocError> {
    let mut dumped = Dumped {
        bytes: blob,
        strings_at: word_at(blob, 12).unwrap_or(0) as usize,
        wants_places,
        depth: 0,
        out: head,
        told: Vec::new(alloc),
    };
    dumped.add_header(alloc)?;
    dumped.add_reserves(alloc)?;
    Ok(dumped)
}

fn add_text(out: &mut Vec<u8>, text: Result<String, AllocError>) -> Result<(), AllocError> {
    let text = text?;
    out.extend_from_slice(text.as_bytes())
}

// A number as C's `%#x` puts it: 0 stands alone.
fn alternate_hex(alloc: Global, number: u64) -> Result<String, AllocError> {
    if number == 0 {
        return String::from_str(alloc, "0");
    }
    format!(in alloc; "0x{number:x}")
}

fn tag_name(tag: u32) -> &'static str {
    match tag {
        BEGIN_NODE => "FDT_BEGIN_NODE",
        END_NODE => "FDT_END_NODE",
        PROPERTY => "FDT_PROP",
        NOP => "FDT_NOP",
        _ => "unknown",
    }
}

fn add_strings(out: &mut Vec<u8>, value: &[u8]) -> Result<(), AllocError> {
    let texts = value.strip_suffix(b"\0".as_slice()).unwrap_or(value);
    let mut between = b" = \"".as_slice();
    for text in texts.split(|byte| *byte == 0) {
        out.extend_from_slice(between)?;
        out.extend_from_slice(text)?;
        between = b"\", \"";
    }
    out.extend_from_slice(b"\"")
}

fn add_cells(alloc: Global, out: &mut Vec<u8>, value: &[u8]) -> Result<(), AllocError> {
    let mut between = b" = <".as_slice();
    for cell in value.chunks(4) {
        let number = word_at(cell, 0).unwrap_or(0);
        out.extend_from_slice(between)?;
        add_text(out, format!(in alloc; "0x{number:08x}"))?;
        between = b" ";
    }
    out.extend_from_slice(b">")
}

fn add_bytes(alloc: Global, out: &mut Vec<u8>, value: &[u8]) -> Result<(), AllocError> {
    let mut between = b" = [".as_slice();
    for byte in value {
        out.extend_from_slice(between)?;
        add_text(out, format!(in alloc; "{byte:02x}"))?;
        between = b" ";
    }
    out.extend_from_slice(b"]")
}

fn add_value(alloc: Global, out: &mut Vec<u8>, value: &[u8]) -> Result<(), AllocError> {
    if value.is_empty() {
        return Ok(());
    }
    if are_texts(value) {
        return add_strings(out, value);
    }
    if value.len() % 4 == 0 {
        return add_cells(alloc, out, value);
    }
    add_bytes(alloc, out, value)
}

impl Dumped<'_> {
    fn word(&self, offset: usize) -> u32 {
        word_at(self.bytes, offset).unwrap_or(0)
    }

    fn add_header(&mut self, alloc: Global) -> Result<(), AllocError> {
        let (total, version) = (self.word(4), self.word(20));
        add_text(
            &mut self.out,
            format!(in alloc;
                "/dts-v1/;\n// magic:\t\t0xd00dfeed\n// totalsize:\t\t0x{total:x} ({total})\n"
            ),
        )?;
        let (structure, strings, reserves) = (self.word(8), self.word(12), self.word(16));
        add_text(
            &mut self.out,
            format!(in alloc;
                "// off_dt_struct:\t0x{structure:x}\n// off_dt_strings:\t0x{strings:x}\n// off_mem_rsvmap:\t0x{reserves:x}\n"
            ),
        )?;
        let compatible = self.word(24);
        add_text(
            &mut self.out,
            format!(in alloc; "// version:\t\t{version}\n// last_comp_version:\t{compatible}\n"),
        )?;
        self.add_newer(alloc, version)?;
        self.out.extend_from_slice(b"\n")
    }

    // The words that later versions have.
    fn add_newer(&mut self, alloc: Global, version: u32) -> Result<(), AllocError> {
        let (boot_cpu, strings, structure) = (self.word(28), self.word(32), self.word(36));
        if version >= 2 {
            add_text(
                &mut self.out,
                format!(in alloc; "// boot_cpuid_phys:\t0x{boot_cpu:x}\n"),
            )?;
        }
        if version >= 3 {
            add_text(
                &mut self.out,
                format!(in alloc; "// size_dt_strings:\t0x{strings:x}\n"),
            )?;
        }
        if version >= 17 {
            add_text(
                &mut self.out,
                format!(in alloc; "// size_dt_struct:\t0x{structure:x}\n"),
            )?;
        }
        Ok(())
    }

    fn add_reserves(&mut self, alloc: Global) -> Result<(), AllocError> {
        let mut at = self.word(16) as usize;
        for _reserve in 0..self.bytes.len() {
            let Some(pair) = bytes_at(self.bytes, at, 16) else {
                return Ok(());
            };
            let words = [0, 4, 8, 12].map(|place| u64::from(word_at(pair, place).unwrap_or(0)));
            let (address, size) = (words[0] << 32 | words[1], words[2] << 32 | words[3]);
            if size == 0 {
                return Ok(());
            }
            let address = alternate_hex(alloc, address)?;
            let size = alternate_hex(alloc, size)?;
            add_text(
                &mut self.out,
                format!(in alloc; "/memreserve/ {address} {size};\n"),
            )?;
            at = at.saturating_add(16);
        }
        Ok(())
    }

    // Prints the structure block, and what stands before it.
    fn print_structure<O: Channel>(
        &mut self,
        alloc: Global,
        output: &mut O,
    ) -> Result<(), Failure<'static>>
        requires { O.has_failed output.old ≡ false }
    {
        let mut at = self.word(8) as usize;
        'tokens: for _token in 0..self.bytes.len() {
            match self.add_token(alloc, at)? {
                Some(next) => at = next,
                None => return self.print(output),
            }
            if self.out.len() >= PIECE {
                self.print(output)?;
            }
        }
        self.print(output)
    }

    fn print<O: Channel>(&mut self, output: &mut O) -> Result<(), Failure<'static>>
        requires { O.has_failed output.old ≡ false }
        ensures { OnOk result (O.has_failed output.new ≡ false) }
    {
        put(output, self.out.as_slice())?;
        self.out.clear();
        Ok(())
    }

    fn add_front(&mut self) -> Result<(), AllocError> {
        for _level in 0..self.depth {
            self.out.extend_from_slice(b"    ")?;
        }
        Ok(())
    }

    // Tells where something stands, where that is asked for.
    fn add_place(&mut self, alloc: Global, at: usize, what: &str) -> Result<(), AllocError> {
        if self.wants_places {
            add_text(&mut self.out, format!(in alloc; "// {at:04x}: {what}\n"))?;
        }
        Ok(())
    }

    // Tells what ends the dump.
    fn tell(&mut self, alloc: Global, at: usize, what: &str) -> Result<Option<usize>, AllocError> {
        add_text(
            &mut self.told,
            format!(in alloc; " ** {what} at 0x{at:x}\n"),
        )?;
        Ok(None)
    }

    // Adds a token, and answers where the next one is.
    fn add_token(&mut self, alloc: Global, at: usize) -> Result<Option<usize>, AllocError> {
        let Some(tag) = word_at(self.bytes, at) else {
            return self.tell(alloc, at, "The blob is cut");
        };
        if tag == END {
            return Ok(None);
        }
        let name = tag_name(tag);
        let what = format!(in alloc; "tag: 0x{tag:08x} ({name})")?;
        self.add_place(alloc, at, what.as_str())?;
        let next = at.saturating_add(4);
        match tag {
            BEGIN_NODE => self.add_begin(next),
            END_NODE => self.add_end(next),
            PROPERTY => self.add_property(alloc, next),
            NOP => {
                self.add_front()?;
                self.out.extend_from_slice(b"// [NOP]\n")?;
                Ok(Some(next))
            }
            _ => {
                let what = format!(in alloc; "Unknown tag 0x{tag:08x}")?;
                self.tell(alloc, at, what.as_str())
            }
        }
    }

    fn add_begin(&mut self, at: usize) -> Result<Option<usize>, AllocError> {
        let bytes = self.bytes;
        let name = text_at(bytes, at);
        self.add_front()?;
        self.out
            .extend_from_slice(if name.is_empty() { b"/" } else { name })?;
        self.out.extend_from_slice(b" {\n")?;
        self.depth = self.depth.saturating_add(1);
        let end = at.saturating_add(name.len()).saturating_add(1);
        Ok(Some(aligned(end)))
    }

    fn add_end(&mut self, at: usize) -> Result<Option<usize>, AllocError> {
        self.depth = self.depth.saturating_sub(1);
        self.add_front()?;
        self.out.extend_from_slice(b"};\n")?;
        Ok(Some(at))
    }

    fn add_property(&mut self, alloc: Global, at: usize) -> Result<Option<usize>, AllocError> {
        let bytes = self.bytes;
        let (len, name_at) = (
            self.word(at) as usize,
            self.word(at.saturating_add(4)) as usize,
        );
        let value_at = at.saturating_add(8);
        let Some(value) = bytes_at(bytes, value_at, len) else {
            return self.tell(alloc, at, "A property is cut");
        };
        let name_at = self.strings_at.saturating_add(name_at);
        let name = text_at(bytes, name_at);
        self.add_string_place(alloc, name_at, name)?;
        self.add_place(alloc, value_at, "value")?;
        self.add_front()?;
        self.out.extend_from_slice(name)?;
        add_value(alloc, &mut self.out, value)?;
        self.out.extend_from_slice(b";\n")?;
        Ok(Some(aligned(value_at.saturating_add(len))))
    }

    fn add_string_place(
        &mut self,
        alloc: Global,
        at: usize,
        name: &[u8],
    ) -> Result<(), AllocError> {
        if self.wants_places {
            add_text(&mut self.out, format!(in alloc; "// {at:04x}: string: "))?;
            self.out.extend_from_slice(name)?;
            self.out.extend_from_slice(b"\n")?;
        }
        Ok(())
    }
}
