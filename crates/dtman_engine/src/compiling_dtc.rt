//! The blob of a source in dtc's language, from bytes to bytes.
ghost use Rattle.std.specs.Prelude.{◌≡◌, IfOk, IfErr};
ghost use Rattle.dt_text.specs.declared.lexeme.language.Language.TheVariants.{Dtc};
ghost use Rattle.dt_tree.specs.PathMap.{tree_map};
ghost use Rattle.dt_source.specs.Filled.{filled};
ghost use Rattle.dt_source.specs.Meaning.{meaning_of};
ghost use Rattle.dt_source.specs.Parse.{Says};
ghost use Rattle.dt_source.specs.TreeMeaning.Syntax.{Meaning};
ghost use Rattle.dt_blob.specs.Blob.{blob_of};
ghost use Rattle.dtman_engine.specs.CompileDtc.{AnswersFilled, BuildsDtc, IsDtcCompiled, IsDtcRefusal, dtc_meant};
ghost use Rattle.dtman_engine.specs.Fault.{fault_value};
ghost use Rattle.dtman_engine.specs.Limits.{IsShort};
ghost use Rattle.dtman_engine.specs.Private.CompilingDtc.{TellsLack, boots_on};

use crate::compiling::tree_blob;
use crate::fault::Fault;
use crate::limits::MAX_BLOB_LEN;
use dt_blob::BlobError;
use dt_build::{Built, build_dtc_within};
use dt_live::making::Places;
use dt_source::{Source, SourceError, SourceErrorKind, one_source, parse, place_at};
use dt_text::lexeme::{Binary, Language, ReadError};
use dt_tree::Tree;
use std::alloc::Global;
use std::hash::RandomState;

/// How a source in dtc's language is compiled.
#[derive(Clone, Copy, Debug, PartialEq, Eq)]
pub struct DtcOptions {
    /// the root gets `__symbols__`, with the path of each labelled node
    pub symbols: bool,
    /// the processor on which the system boots; where none is named it is the source's own
    pub boot_processor: Option<u32>,
}

/// A blob, the tree that it holds, and where the text of its source has that tree's nodes and properties.
#[derive(Drop)]
pub struct Compiled {
    pub blob: Vec<u8>,
    pub tree: Tree,
    pub places: Places,
}

/// The blob of the tree that the source in a text in dtc's language means, that tree and its places, with the files that its `/incbin/` name, in the order
/// of the text, each at the place of its word in bytes (Devicetree Specification v0.4, chapters 5 and 6; where it is silent,
/// dtc 1.6.1).
///
/// The text's fault comes first, with its place: 10 to 16, or 17 where it is over 16 MiB. Then, with the place of its `/incbin/`, 10
/// where the next file is of another place or none is left; then 20 to 28 of what the source says; then 38 of a blob over 256 MiB:
/// sizes are counted before any value is made, and files count there alone. Of a whole file nothing is copied.
pub fn compile_dtc(
    alloc: Global,
    hasher: RandomState,
    source: &[u8],
    binaries: Vec<Binary>,
    options: DtcOptions,
) -> Result<Compiled, Fault>
    // What is answered is the blob of the tree that the text means with these files.
    ensures answer { IfOk result (λ made. IsDtcCompiled options source.now binaries.items made.blob.items) }
    // The tree is the one whose blob it is.
    ensures tree { IfOk result (λ made. made.blob.items ≡ blob_of made.tree) }
    // What a text says is answered, or why it makes no blob: a file that is lacking is told, too.
    ensures said { (m : Meaning) → IsShort source.now → Says Dtc source.now m
        → AnswersFilled options source.now (filled binaries.items m) result }
    // Each refusal has its reason in the text or in the files.
    ensures refused { IfErr result (λ fault. IsDtcRefusal options source.now binaries.items (fault_value fault)) }
{
    one_source();
    match parse(alloc, source, Language::Dtc) {
        Err(error) => Err(Fault::from(error)),
        Ok(parsed) => compiled_with(alloc, hasher, source, parsed, binaries, options),
    }
}

// A source, which was parsed of this text, compiled with these files.
fn compiled_with(
    alloc: Global,
    hasher: RandomState,
    text: &[u8],
    parsed: Source<'_>,
    binaries: Vec<Binary>,
    options: DtcOptions,
) -> Result<Compiled, Fault>
    ensures answer { AnswersFilled options text.now (filled binaries.items (meaning_of parsed.entry)) result }
    ensures tree { IfOk result (λ made. made.blob.items ≡ blob_of made.tree) }
{
    match parsed.fill(alloc, binaries) {
        Err(error) => Err(lack(text, error)),
        Ok(source) => compile_filled(alloc, hasher, text, &source, options),
    }
}

// The fault of a text whose files can't be filled in.
fn lack(text: &[u8], error: ReadError) -> Fault
    ensures { TellsLack text.now error (fault_value result) }
{
    match error {
        ReadError::NoMemory => Fault::no_memory(),
        ReadError::Refused(refusal) => Fault::from(SourceError {
            kind: SourceErrorKind::Syntax,
            place: place_at(text, refusal.place),
        }),
    }
}

// A source, whose files are filled in, compiled.
fn compile_filled(
    alloc: Global,
    hasher: RandomState,
    text: &[u8],
    source: &Source<'_>,
    options: DtcOptions,
) -> Result<Compiled, Fault>
    ensures answer { BuildsDtc (dtc_meant options (meaning_of source.now)) result }
    ensures tree { IfOk result (λ made. made.blob.items ≡ blob_of made.tree) }
{
    match build_dtc_within(alloc, hasher, source, options.symbols, MAX_BLOB_LEN) {
        Err(error) => Err(Fault::of_build(text, error)),
        Ok(None) => Err(Fault::from(BlobError::TooLarge)),
        Ok(Some(Built { tree, places })) => {
            let tree = booted(tree, options.boot_processor);
            tree.check();
            match tree_blob(alloc, hasher, &tree) {
                Ok(blob) => Ok(Compiled { blob, tree, places }),
                Err(fault) => Err(fault),
            }
        }
    }
}

// The tree, whose system boots on the processor that is named.
fn booted(tree: Tree, processor: Option<u32>) -> Tree
    ensures { tree_map result ≡ boots_on processor (tree_map tree) }
{
    match processor {
        None => tree,
        Some(processor) => {
            tree.check();
            let (reserves, _, root) = tree.into_parts();
            match Tree::new(reserves, processor, root) {
                Ok(tree) => tree,
                // the root has no name
                Err(_) => unreachable!(),
            }
        }
    }
}
