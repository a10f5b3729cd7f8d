//! The calls that change a tree. Each changes what it names, and a refused call leaves the tree as it was.
ghost use Rattle.std.specs.Prelude.{◌≡◌, OnOk, OnErr};
ghost use Rattle.dt_tree.specs.Answers.{IsChangedBy, IsRefusedBy, TellsWhether, fault_of_path, has_child_at, has_property_at};
ghost use Rattle.dt_tree.specs.Changes.{child_fault, with_child, with_property, without_child, without_property};
ghost use Rattle.dt_tree.specs.Path.{path_names};
ghost use Rattle.dt_tree.specs.PathMap.{path_map};
ghost use Rattle.dt_tree.specs.Sound.{IsSound};
ghost use Rattle.dt_tree.specs.Private.Answered.{AnswersAt, with_root};
ghost use Rattle.dt_tree.specs.Private.Edits.{change_at, edited};

use crate::bytes::Bytes;
use crate::error::TreeError;
use crate::limits::MAX_DEPTH;
use crate::name::Name;
use crate::node::changing::Edit;
use crate::path::Path;
use crate::property::Property;
use crate::tree::Tree;
use std::alloc::Global;

impl Tree {
    /// Sets a property of the node at the path: in the place of the one of this name, or last.
    /// Fails with `NoSuchPath`, or with `NoMemory`.
    pub fn set_property(&mut self, path: &Path, name: Name, value: Bytes) -> Result<(), TreeError>
        ensures set { OnOk result (IsChangedBy (with_property (path_names path.now) name value) self.old self.new) }
        ensures kept { OnErr result (self.new ≡ self.old) }
        ensures fault { IsRefusedBy (fault_of_path self.old.root path.now) result }
    {
        self.edit(path, Edit::SetProperty(Property { name, value }))?;
        Ok(())
    }

    /// Takes a property from the node at the path, and answers whether it was there.
    /// Fails with `NoSuchPath`. Takes no memory.
    pub fn remove_property(&mut self, path: &Path, name: &Name) -> Result<bool, TreeError>
        ensures removed { OnOk result (IsChangedBy (without_property (path_names path.now) name.now) self.old self.new) }
        ensures kept { OnErr result (self.new ≡ self.old) }
        ensures answer { TellsWhether (fault_of_path self.old.root path.now)
            (has_property_at self.old.root path.now name.now) result }
    {
        self.edit(path, Edit::RemoveProperty(name))
    }

    /// Puts an empty child last in the node at the path. Fails with `NoSuchPath`, with `DuplicateNode`, with
    /// `TooDeep` at a path of 64 names, or with `NoMemory`.
    pub fn add_child(&mut self, alloc: Global, path: &Path, name: Name) -> Result<(), TreeError>
        ensures added { OnOk result (IsChangedBy (with_child (path_names path.now) name) self.old self.new) }
        ensures kept { OnErr result (self.new ≡ self.old) }
        ensures fault { IsRefusedBy (child_fault (path_map self.old.root) (path_names path.now) name) result }
    {
        self.edit(path, Edit::AddChild(alloc, name))?;
        Ok(())
    }

    /// Takes a child and all below it from the node at the path, and answers whether it was there.
    /// Fails with `NoSuchPath`. Takes no memory.
    pub fn remove_child(&mut self, path: &Path, name: &Name) -> Result<bool, TreeError>
        ensures removed { OnOk result (IsChangedBy (without_child (path_names path.now) name.now) self.old self.new) }
        ensures kept { OnErr result (self.new ≡ self.old) }
        ensures answer { TellsWhether (fault_of_path self.old.root path.now)
            (has_child_at self.old.root path.now name.now) result }
    {
        self.edit(path, Edit::RemoveChild(name))
    }

    /// Does the edit at the node at the path.
    fn edit(&mut self, path: &Path, edit: Edit<'_>) -> Result<bool, TreeError>
        ensures sound { IsSound self.old.root }
        ensures changed { OnOk result (self.new ≡ with_root (change_at (path_names path.now) (edited edit.entry)) self.old) }
        ensures kept { OnErr result (self.new ≡ self.old) }
        ensures answer { AnswersAt (path_names path.now) edit.entry MAX_DEPTH self.old.root result }
    {
        self.root.check();
        let answer = self.root.edit_below(MAX_DEPTH, path.names_between(), edit);
        self.root.check();
        answer
    }
}
