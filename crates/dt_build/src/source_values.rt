//! The values of a source's properties, in the order of the walk.
ghost use Rattle.std.specs.Prelude.{◌≡◌, ◌-◌, ◌^◌, min};
ghost use Rattle.dt_live.specs.Rows.{node_path};
ghost use Rattle.dt_live.specs.Builder.Sizes.{size_in};
ghost use Rattle.dt_build.specs.Private.Made.{all_phandles, plain_properties};
ghost use Rattle.dt_build.specs.Private.Ready.{IsReady};
ghost use Rattle.dt_build.specs.Private.SourceValues.{AreReady, source_made};
ghost use Rattle.dt_build.specs.Private.Values.{values_of};

use crate::draft::Draft;
use crate::node_phandles::NodePhandles;
use crate::resolve::targets_behind;
use crate::value::{value_bytes, value_size};
use dt_live::making::Values;
use dt_source::Value;
use dt_tree::Bytes;
use std::alloc::{AllocError, Global};

/// Values that are made, and the targets of those that come next.
#[derive(Drop)]
pub(crate) struct SourceValues<'p, 'd, 't> {
    pub(crate) draft: &'p Draft<'d, 't>,
    pub(crate) node_phandles: &'p NodePhandles,
    pub(crate) targets: &'p [Option<usize>],
}

impl<'p, 'd, 't> Values<&'d Value<'t>> for SourceValues<'p, 'd, 't> {
    ghost made = { λ s. source_made s.draft.now s.node_phandles.now };

    ghost is_ready = { AreReady };

    ghost bytes_of = { λ s vs. values_of (all_phandles s.draft.now) (node_path s.draft.now.live) vs s.targets.now };

    fn next(&mut self, alloc: Global, value: &'d Value<'t>) -> Result<Bytes, AllocError> {
        let parts = value.parts.as_slice();
        let bytes = value_bytes(alloc, self.draft, self.node_phandles, parts, self.targets)?;
        self.targets = targets_behind(parts, self.targets);
        Ok(bytes)
    }

    fn new_phandle(&self, node: usize) -> Option<u32> {
        match self.node_phandles.added.get(node) {
            Some(true) => Some(self.node_phandles.phandles[node]),
            _ => None,
        }
    }
}

/// How many bytes the values have together, or the greatest number where there are more. Takes no memory.
pub(crate) fn values_size(draft: &Draft<'_, '_>) -> usize
    requires { IsReady draft.now }
    ensures { result ≡ min (size_in (plain_properties draft.now)) (2 ^ 64 - 1) }
{
    let mut size: usize = 0;
    let mut left = draft.targets.as_slice();
    for node_property in draft.in_preorder.properties.as_slice() {
        let parts = node_property.value.parts.as_slice();
        size = size.saturating_add(value_size(draft, parts, left));
        left = targets_behind(parts, left);
    }
    size
}
