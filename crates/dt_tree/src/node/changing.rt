//! One change of the node at a path. Nothing else of the node above it changes.
ghost use Rattle.std.specs.Prelude.{◌≡◌, ◌≤◌, ◌∷◌, IfOk, OnOk, OnErr, None};
ghost use Rattle.std.specs.List.{slice_split};
ghost use Rattle.dt_tree.specs.declared.node.changing.Edit.TheVariants.{AddChild};
ghost use Rattle.dt_tree.specs.NodeData.{child_names, property_names, siblings, height_of};
ghost use Rattle.dt_tree.specs.Path.{is_slash};
ghost use Rattle.dt_tree.specs.Sound.{is_among};
ghost use Rattle.dt_tree.specs.Private.Answered.{AnswersAt, AnswersHere};
ghost use Rattle.dt_tree.specs.Private.Edits.{change_at, drop_child, drop_property, edited, names_in, place_of, push_child, put_property};

use crate::error::TreeError;
use crate::limits::MAX_DEPTH;
use crate::name::Name;
use crate::node::Node;
use crate::property::Property;
use std::alloc::{AllocError, Global};

/// What is done to a node.
#[derive(Drop)]
pub(crate) enum Edit<'a> {
    SetProperty(Property),
    RemoveProperty(&'a Name),
    AddChild(Global, Name),
    RemoveChild(&'a Name),
}

/// The first of the names between slashes, and the text of the others.
pub(super) fn split_first_name(names: &[u8]) -> (&[u8], Option<&[u8]>)
    ensures { slice_split is_slash names.now ≡ result.0.now ∷ names_in result.1 }
{
    for (at, byte) in names.iter().enumerate() {
        if *byte == b'/' {
            return (&names[..at], Some(&names[at + 1..]));
        }
    }
    (names, None)
}

pub(super) fn place_of_child(children: &[Node], name: &[u8]) -> Option<usize>
    ensures { result ≡ place_of (child_names (siblings children.now)) name.now }
{
    for (at, child) in children.iter().enumerate() {
        if child.name_bytes() == name {
            return Some(at);
        }
    }
    None
}

fn place_of_property(properties: &[Property], name: &[u8]) -> Option<usize>
    ensures { result ≡ place_of (property_names properties.now) name.now }
{
    for (at, property) in properties.iter().enumerate() {
        if property.name.as_bytes() == name {
            return Some(at);
        }
    }
    None
}

/// Puts the property in the place of the one of its name, or last.
fn put_property(properties: &mut Vec<Property>, property: Property) -> Result<bool, AllocError>
    ensures put { OnOk result (properties.new.items ≡ put_property property properties.old.items) }
    ensures there { IfOk result (λ there. there ≡ is_among property.name (property_names properties.old.items)) }
    ensures kept { OnErr result (properties.new.items ≡ properties.old.items) }
{
    match place_of_property(properties.as_slice(), property.name.as_bytes()) {
        None => {
            properties.push(property)?;
            Ok(false)
        }
        Some(at) => {
            properties[at].value = property.value;
            Ok(true)
        }
    }
}

/// Takes the property of this name out, and answers whether it was there.
fn drop_property(properties: &mut Vec<Property>, name: &Name) -> bool
    ensures dropped { properties.new.items ≡ drop_property name.now properties.old.items }
    ensures there { result ≡ is_among name.now (property_names properties.old.items) }
{
    match place_of_property(properties.as_slice(), name.as_bytes()) {
        None => false,
        Some(at) => {
            properties.remove(at);
            true
        }
    }
}

/// Takes the child of this name out, and answers whether it was there.
fn drop_child(children: &mut Vec<Node>, name: &Name) -> bool
    ensures dropped { siblings children.new.items ≡ drop_child name.now (siblings children.old.items) }
    ensures there { result ≡ is_among name.now (child_names (siblings children.old.items)) }
{
    match place_of_child(children.as_slice(), name.as_bytes()) {
        None => false,
        Some(at) => {
            children.remove(at);
            true
        }
    }
}

/// Puts a child of this name last, with nothing in it.
fn push_child(alloc: Global, children: &mut Vec<Node>, name: Name) -> Result<(), AllocError>
    ensures pushed { OnOk result (siblings children.new.items ≡ push_child name (siblings children.old.items)) }
    ensures kept { OnErr result (siblings children.new.items ≡ siblings children.old.items) }
{
    children.push(Node::from_distinct(Some(name), Vec::new(alloc), Vec::new(alloc)))?;
    Ok(())
}

impl Node {
    /// Puts an empty child of this name last, where no child has it and there may be levels below the node.
    fn add_child(&mut self, alloc: Global, room: usize, name: Name) -> Result<bool, TreeError>
        requires low { height_of self.now.children ≤ room }
        requires bound { room ≤ MAX_DEPTH }
        ensures changed { OnOk result (self.new ≡ edited (AddChild alloc name) self.old) }
        ensures kept { OnErr result (self.new ≡ self.old) }
        ensures low { height_of self.new.children ≤ room }
        ensures answer { AnswersHere (AddChild alloc name) room self.old result }
    {
        match place_of_child(self.children.as_slice(), name.as_bytes()) {
            Some(_) => Err(TreeError::DuplicateNode),
            None => {
                if room == 0 {
                    return Err(TreeError::TooDeep);
                }
                name.check();
                push_child(alloc, &mut self.children, name)?;
                Ok(false)
            }
        }
    }

    /// Does the edit at this node, which may have so many levels below it.
    fn edit_here(&mut self, room: usize, edit: Edit<'_>) -> Result<bool, TreeError>
        requires low { height_of self.now.children ≤ room }
        requires bound { room ≤ MAX_DEPTH }
        ensures changed { OnOk result (self.new ≡ edited edit.entry self.old) }
        ensures kept { OnErr result (self.new ≡ self.old) }
        ensures low { height_of self.new.children ≤ room }
        ensures answer { AnswersHere edit.entry room self.old result }
    {
        match edit {
            Edit::SetProperty(property) => {
                property.name.check();
                Ok(put_property(&mut self.properties, property)?)
            }
            Edit::RemoveProperty(name) => Ok(drop_property(&mut self.properties, name)),
            Edit::RemoveChild(name) => Ok(drop_child(&mut self.children, name)),
            Edit::AddChild(alloc, name) => self.add_child(alloc, room, name),
        }
    }

    /// Does the edit at the node that these names lead to.
    pub(crate) fn edit_below(
        &mut self,
        room: usize,
        names: Option<&[u8]>,
        edit: Edit<'_>,
    ) -> Result<bool, TreeError>
        requires low { height_of self.now.children ≤ room }
        requires bound { room ≤ MAX_DEPTH }
        ensures changed { OnOk result (self.new ≡ change_at (names_in names.entry) (edited edit.entry) self.old) }
        ensures kept { OnErr result (self.new ≡ self.old) }
        ensures low { height_of self.new.children ≤ room }
        ensures name { self.new.name ≡ self.old.name }
        ensures answer { AnswersAt (names_in names.entry) edit.entry room self.old result }
    {
        match names {
            None => self.edit_here(room, edit),
            Some(names) => {
                let (first, rest) = split_first_name(names);
                match place_of_child(self.children.as_slice(), first) {
                    None => Err(TreeError::NoSuchPath),
                    Some(at) => {
                        let child = &mut self.children[at];
                        let answer = child.edit_below(room - 1, rest, edit);
                        child.check();
                        answer
                    }
                }
            }
        }
    }
}
