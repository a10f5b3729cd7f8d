//! The blob of a source, from bytes to bytes.
ghost use Rattle.std.specs.Prelude.{IfOk, IfErr};
ghost use Rattle.dt_text.specs.declared.lexeme.language.Language.TheVariants.{Profile};
ghost use Rattle.dt_source.specs.Parse.{Says};
ghost use Rattle.dt_source.specs.Meaning.{meaning_of};
ghost use Rattle.dt_source.specs.TreeMeaning.Syntax.{Meaning};
ghost use Rattle.dtman_engine.specs.Compile.{Builds, IsCompileRefusal, IsCompiled};
ghost use Rattle.dtman_engine.specs.Culprit.{IsOfNoBlob};
ghost use Rattle.dtman_engine.specs.Fault.{fault_value};
ghost use Rattle.dtman_engine.specs.Limits.{IsShort};
ghost use Rattle.dtman_engine.specs.Copy.{CopiesTree};

use crate::fault::Fault;
use crate::limits::MAX_BLOB_LEN;
use dt_blob::{BlobError, write};
use dt_build::build_within;
use dt_source::{Source, one_source, parse};
use dt_text::lexeme::Language;
use dt_tree::Tree;
use std::alloc::Global;
use std::hash::RandomState;

/// The blob of the tree that the source in a text means.
///
/// The text's fault comes first, with its place, then that of what it says, then a blob that is too long: sizes are counted before
/// any value is made.
pub fn compile_bytes(
    alloc: Global,
    hasher: RandomState,
    source: &[u8],
    symbols: bool,
) -> Result<Vec<u8>, Fault>
    // What is answered is the blob of the tree that the text means.
    ensures answer { IfOk result (λ blob. IsCompiled symbols source.now blob.items) }
    // What a text says is answered, or why it makes no blob.
    ensures said { (m : Meaning) → IsShort source.now → Says Profile source.now m → Builds symbols m result }
    // Each refusal has its reason in the text.
    ensures refused { IfErr result (λ fault. IsCompileRefusal symbols source.now (fault_value fault)) }
{
    one_source();
    match parse(alloc, source, Language::Profile) {
        Err(error) => Err(Fault::from(error)),
        Ok(parsed) => source_blob(alloc, hasher, source, &parsed, symbols),
    }
}

// The blob of a source, of whose text it was parsed.
fn source_blob(
    alloc: Global,
    hasher: RandomState,
    text: &[u8],
    source: &Source<'_>,
    symbols: bool,
) -> Result<Vec<u8>, Fault>
    ensures { Builds symbols (meaning_of source.now) result }
{
    match build_within(alloc, hasher, source, symbols, MAX_BLOB_LEN) {
        Err(error) => Err(Fault::of_build(text, error)),
        Ok(None) => Err(Fault::from(BlobError::TooLarge)),
        Ok(Some(tree)) => {
            tree.check();
            tree_blob(alloc, hasher, &tree)
        }
    }
}

/// The blob of a tree: of version 17, in the order of chapter 5 of the Devicetree Specification. Refused are want of memory (0) and a
/// blob of more than 268,435,456 bytes (33).
pub fn tree_blob(alloc: Global, hasher: RandomState, tree: &Tree) -> Result<Vec<u8>, Fault>
    ensures made { CopiesTree tree.now result }
    ensures word { IfErr result (λ fault. IsOfNoBlob fault.culprit) }
{
    match write(alloc, hasher, tree) {
        Ok(blob) => Ok(blob),
        Err(error) => Err(Fault::from(error)),
    }
}
