//! The bytes of values whose references have targets.
ghost use Rattle.std.specs.Prelude.{◌≡◌, ◌≤◌, ◌^◌, ◌-◌, ◌++◌, ◌∷◌, [], None, All, IfOk, OnOk, length, min};
ghost use Rattle.dt_build.specs.Resolve.Targets.{IsKnown};
ghost use Rattle.dt_build.specs.Private.FirstPhandle.{IsByPath};
ghost use Rattle.dt_build.specs.Private.NodePhandles.{AreNodePhandles};
ghost use Rattle.dt_build.specs.Private.Ready.{IsReady};
ghost use Rattle.dt_build.specs.Private.Values.{bytes_for, part_bytes};

use crate::draft::Draft;
use crate::node_phandles::NodePhandles;
use crate::resolve::{target_at, target_count};
use dt_live::{append_path, path_size};
use dt_source::Part;
use dt_tree::Bytes;
use std::alloc::{AllocError, Global};

// ---- sizes
/// How many bytes a part has, or the greatest number where there are more. Takes no memory.
pub(crate) fn part_size(draft: &Draft<'_, '_>, part: &Part<'_>, target: Option<usize>) -> usize
    requires ready { IsReady draft.now }
    requires known { IsKnown draft.now.live target }
    ensures { result ≡ min (length (part_bytes draft.now part.now target)) (2 ^ 64 - 1) }
{
    match (part, target) {
        (Part::Bytes(bytes), _) => bytes.len(),
        // never in a source whose files were filled in
        (Part::File(_), _) => 0,
        (Part::Phandle(_), _) => 4,
        (Part::Path(_), Some(node)) => path_size(draft.live.nodes(), node),
        // never: the text of a path has its node
        (Part::Path(_), None) => 0,
    }
}

/// How many bytes a value has, or the greatest number where there are more. Takes no memory.
pub(crate) fn value_size(
    draft: &Draft<'_, '_>,
    value: &[Part<'_>],
    targets: &[Option<usize>],
) -> usize
    requires ready { IsReady draft.now }
    requires known { All (IsKnown draft.now.live) targets.now }
    ensures { result ≡ min (length (bytes_for draft.now value.now targets.now)) (2 ^ 64 - 1) }
{
    let mut size: usize = 0;
    let mut used = 0;
    for part in value {
        size = size.saturating_add(part_size(draft, part, target_at(targets, used)));
        used += target_count(part);
    }
    size
}

// ---- bytes
// A cell whose node the plugin leaves to its base holds the number that is no phandle.
fn append_part(
    value: &mut Vec<u8>,
    draft: &Draft<'_, '_>,
    node_phandles: &NodePhandles,
    part: &Part<'_>,
    target: Option<usize>,
) -> Result<(), AllocError>
    requires ready { IsReady draft.now }
    requires node_phandles { AreNodePhandles draft.now node_phandles.now }
    requires known { IsKnown draft.now.live target }
    requires numbered { IsByPath draft.now target }
    ensures { OnOk result (value.new.items ≡ value.old.items ++ part_bytes draft.now part.now target) }
{
    match (part, target) {
        (Part::Bytes(bytes), _) => value.extend_from_slice(bytes)?,
        // never in a source whose files were filled in
        (Part::File(_), _) => {}
        (Part::Phandle(_), Some(node)) => {
            value.extend_from_slice(&node_phandles.phandles[node].to_be_bytes())?
        }
        (Part::Phandle(_), None) => value.extend_from_slice(&u32::MAX.to_be_bytes())?,
        (Part::Path(_), Some(node)) => append_path(value, draft.live.nodes(), node)?,
        // never: the text of a path has its node
        (Part::Path(_), None) => {}
    }
    Ok(())
}

/// The bytes of a value, in room that is taken once.
pub(crate) fn value_bytes(
    alloc: Global,
    draft: &Draft<'_, '_>,
    node_phandles: &NodePhandles,
    value: &[Part<'_>],
    targets: &[Option<usize>],
) -> Result<Bytes, AllocError>
    requires ready { IsReady draft.now }
    requires node_phandles { AreNodePhandles draft.now node_phandles.now }
    requires known { All (IsKnown draft.now.live) targets.now }
    requires numbered { All (IsByPath draft.now) targets.now }
    ensures { IfOk result (λ bytes. bytes ≡ bytes_for draft.now value.now targets.now) }
{
    let mut bytes = Vec::with_capacity(alloc, value_size(draft, value, targets))?;
    let mut used = 0;
    for part in value {
        append_part(
            &mut bytes,
            draft,
            node_phandles,
            part,
            target_at(targets, used),
        )?;
        used += target_count(part);
    }
    Ok(Bytes::from_vec(bytes))
}
