//! The sites that a plugin leaves to its base, as properties of the root's child `__fixups__`.
ghost use Rattle.std.specs.Prelude.{◌≡◌, [], false, IfOk};
ghost use Rattle.dt_source.specs.TreeMeaning.Fixups.{fixups};
ghost use Rattle.dt_source.specs.TreeMeaning.Resolved.{names_taken};
ghost use Rattle.dt_build.specs.Edit.Said.{tree_of};
ghost use Rattle.dt_live.specs.Builder.Lists.{defined_at};
ghost use Rattle.dt_live.specs.Builder.Builders.{built_lists};
ghost use Rattle.dt_live.specs.Builder.Standing.{walked};
ghost use Rattle.dt_build.specs.Private.ByLabel.{fixups_path};
ghost use Rattle.dt_build.specs.Private.Made.{fixup_lists, made_sites, symbol_lists};
ghost use Rattle.dt_build.specs.Private.Ready.{IsReady};
ghost use Rattle.dt_build.specs.Private.FixupSites.{AreSites};

use crate::draft::Draft;
use crate::fixup_sites::FixupSite;
use crate::fixups_by_label::collect_by_label;
use dt_live::builder::TreeBuilder;
use dt_tree::{Bytes, Property, lawful_name};
use std::alloc::{AllocError, Global};

// One property a label that no node has.
fn fixups_of(
    alloc: Global,
    draft: &Draft<'_, '_>,
    sites: &[FixupSite<'_>],
) -> Result<Vec<Property>, AllocError>
    requires ready { IsReady draft.now }
    requires sites { AreSites draft.now sites.now }
    ensures { IfOk result (λ made. defined_at fixups_path made.items ≡ fixups (made_sites draft.now) []) }
{
    let by_label = collect_by_label(alloc, draft, sites)?.labels;
    let mut properties = Vec::with_capacity(alloc, by_label.len())?;
    for label_fixups in by_label {
        properties.push(Property {
            name: lawful_name(alloc, label_fixups.label)?,
            value: Bytes::from_vec(label_fixups.text),
        })?;
    }
    Ok(properties)
}

/// The tree with the node of fixups behind all others, where the plugin leaves a label to its base.
pub(crate) fn with_fixups(
    alloc: Global,
    draft: &Draft<'_, '_>,
    sites: &[FixupSite<'_>],
    symbols: bool,
    builder: TreeBuilder,
) -> Result<TreeBuilder, AllocError>
    requires ready { IsReady draft.now }
    requires sites { AreSites draft.now sites.now }
    requires free { names_taken symbols draft.now.plugin (tree_of draft.now.live) ≡ false }
    requires made { built_lists builder ≡ walked (symbol_lists symbols draft.now) }
    ensures { IfOk result (λ whole. built_lists whole ≡ walked (fixup_lists symbols draft.now)) }
{
    let properties = fixups_of(alloc, draft, sites)?;
    if properties.is_empty() {
        return Ok(builder);
    }
    let name = lawful_name(alloc, b"__fixups__".as_slice())?;
    builder.push(alloc, 1, name, properties)
}
