//! Laws, over the definitions: functions that do nothing, whose contracts are the laws.
ghost use Rattle.std.specs.Prelude.{List, ℕ};
ghost use Rattle.dt_tree.specs.NodeData.{Siblings, more, node_data};
ghost use Rattle.dt_tree.specs.TreeData.{TreeData};
ghost use Rattle.dt_tree.specs.declared.property.Property.{Property};
ghost use Rattle.dt_blob.specs.Holds.{Holds};
ghost use Rattle.dt_patch.specs.View.Shows.{Shows};
ghost use Rattle.dt_patch.specs.View.Standing.{StandFrom, StandsAt};
ghost use Rattle.dt_patch.specs.declared.view.view.View.{View};

/// What holds a tree shows it: whatever `read` of `dt_blob` reads is opened, and shows that tree.
pub fn held_is_shown()
    ensures { (bytes : List ℕ) (tree : TreeData) → Holds bytes tree → Shows bytes tree }
{}

/// The first of nodes side by side stands where they do.
pub fn first_of_siblings()
    ensures { (view : View) (at : ℕ) (name : List ℕ) (ps : List Property) (children rest : Siblings)
        → StandFrom view at (more name ps children rest) → StandsAt view at (node_data name ps children) }
{}
