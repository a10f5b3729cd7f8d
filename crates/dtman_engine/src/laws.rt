//! Laws of the engines.
ghost use Rattle.std.specs.Prelude.{◌≡◌};
ghost use Rattle.dtman_engine.specs.Laws.{BlobsComeBack, OneAnswer};
ghost use Rattle.dtman_engine.specs.Limits.{blob_limit, source_limit, text_limit};

use crate::canonical::canonical_source;
use crate::limits::{MAX_BLOB_LEN, MAX_SOURCE_LEN, MAX_TEXT_LEN};
use dt_blob::{blob_holds, one_tree};
use dt_source::one_source;

/// The blob of a tree with canonical source is what `compile_bytes` makes of what `dump_bytes` prints of it, unless memory
/// is wanted or the text is too long.
pub fn blobs_come_back()
    ensures { BlobsComeBack }
{
    canonical_source();
    one_source();
    one_tree();
    blob_holds();
}

/// One input has one answer, but for want of memory: what `compile_bytes` gives of a text that says something, what
/// `compile_dtc` gives of one that says something with its files, and `overlay_bytes` and `dump_bytes` of bytes that hold
/// trees.
pub fn one_answer()
    ensures { OneAnswer }
{
    one_source();
    one_tree();
}

/// The code's limits are those of the definitions.
pub fn limits_stand()
    ensures blob { MAX_BLOB_LEN ≡ blob_limit }
    ensures source { MAX_SOURCE_LEN ≡ source_limit }
    ensures text { MAX_TEXT_LEN ≡ text_limit }
{}
