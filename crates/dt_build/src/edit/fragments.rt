//! What fragments hold that stands nowhere in a plugin's text.
ghost use Rattle.std.specs.Prelude.{◌≡◌, ◌∷◌, ◌++◌, [], map, All, IfOk, OnOk};
ghost use Rattle.dt_source.specs.TreeMeaning.Names.{fragment_name};
ghost use Rattle.dt_source.specs.TreeMeaning.Statements.{target_value};
ghost use Rattle.dt_source.specs.Lawful.{IsLawfulEdit, IsLawfulTarget};
ghost use Rattle.dt_source.specs.Tree.{item_view, part_view, target_view};
ghost use Rattle.dt_build.specs.Edit.Fragments.{AreFragments, target_values};
ghost use Rattle.dt_build.specs.Edit.Private.Ready.{AddsValues, IsNamed};

use dt_source::{Item, Part, Reference, Value};
use std::alloc::{AllocError, Global};

/// The name of each fragment that a source may make, and the value of its property `target` or `target-path` by its extension.
#[derive(Drop)]
pub struct Fragments<'t> {
    pub(crate) names: Vec<Vec<u8>>,
    pub(crate) targets: Vec<Value<'t>>,
}

fn fragment_name(alloc: Global, number: usize) -> Result<Vec<u8>, AllocError>
    ensures { IfOk result (λ name. name.items ≡ fragment_name number) }
{
    let name = format!(in alloc; "fragment@{number}")?;
    Ok(name.into_bytes())
}

/// A path as text, with the zero byte behind it.
fn path_bytes(alloc: Global, path: &[u8]) -> Result<Vec<u8>, AllocError>
    ensures { IfOk result (λ bytes. bytes.items ≡ path.now ++ 0 ∷ []) }
{
    let mut bytes = Vec::with_capacity(alloc, path.len() + 1)?;
    bytes.extend_from_slice(path)?;
    bytes.push(0)?;
    Ok(bytes)
}

/// What the property of a fragment has that says what it extends.
fn target_value<'t>(alloc: Global, target: &Reference<'t>) -> Result<Value<'t>, AllocError>
    requires { IsLawfulTarget (target_view target.now) }
    ensures { IfOk result (λ value. map part_view value.parts.items ≡ target_value (target_view target.now)) }
{
    let part = match target {
        Reference::Label { at, label } => Part::Phandle(Reference::Label {
            at: *at,
            label: *label,
        }),
        Reference::Path { at: _, path } => Part::Bytes(path_bytes(alloc, *path)?),
    };
    let mut parts = Vec::with_capacity(alloc, 1)?;
    parts.push(part)?;
    Ok(Value {
        at: target.at(),
        parts,
    })
}

impl<'t> Fragments<'t> {
    /// Adds the next name, and what the next extension extends.
    fn add(&mut self, alloc: Global, target: &Reference<'t>) -> Result<(), AllocError>
        requires named { IsNamed self.old }
        requires lawful { IsLawfulTarget (target_view target.now) }
        ensures named { OnOk result (IsNamed self.new) }
        ensures targets { OnOk result (AddsValues (target_value (target_view target.now) ∷ []) self.old self.new) }
    {
        let name = fragment_name(alloc, self.names.len())?;
        let value = target_value(alloc, target)?;
        self.names.push(name)?;
        self.targets.push(value)?;
        Ok(())
    }

    /// Adds what an item has, where it is an extension.
    fn add_item(&mut self, alloc: Global, item: &Item<'t>) -> Result<(), AllocError>
        requires named { IsNamed self.old }
        requires lawful { IsLawfulEdit (item_view item.now) }
        ensures named { OnOk result (IsNamed self.new) }
        ensures targets { OnOk result (AddsValues (target_values (item_view item.now)) self.old self.new) }
    {
        match item {
            Item::Extend { target, .. } => self.add(alloc, target),
            Item::Root { .. } | Item::Delete(_) | Item::Omit(_) => Ok(()),
        }
    }
}

/// A name and a target for each extension of a source, as each may make a fragment.
pub fn fragments_of<'t>(alloc: Global, items: &[Item<'t>]) -> Result<Fragments<'t>, AllocError>
    requires { All IsLawfulEdit (map item_view items.now) }
    ensures { IfOk result (λ fragments. AreFragments (map item_view items.now) fragments) }
{
    let mut fragments = Fragments {
        names: Vec::new(alloc),
        targets: Vec::new(alloc),
    };
    for item in items {
        fragments.add_item(alloc, item)?;
    }
    fragments.names.shrink_to_fit();
    fragments.targets.shrink_to_fit();
    Ok(fragments)
}
