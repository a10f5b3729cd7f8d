//! The worked rows, by computation.
ghost use Rattle.std.specs.Prelude.{◌≡◌, ◌∷◌, [], Ok, Err, Some, true, false};
ghost use Rattle.dt_source.specs.TreeMeaning.Statements.{DuplicateInBody, DuplicateLabel, PathInPlugin, ReservedName, UnknownLabel};
ghost use Rattle.dt_source.specs.TreeMeaning.Resolved.{resolved};
ghost use Rattle.dt_source.specs.TreeMeaning.MapOf.{map_of};
ghost use Rattle.dt_source.specs.TreeMeaning.Rows as row;

/// What the definitions give is what was worked by hand.
#[tactic(auto, unfolding(crate::specs::TreeMeaning::References::preorder, crate::specs::TreeMeaning::Names::decimal))]
pub fn worked_rows()
    ensures merge_and_delete { resolved false row.merge_and_delete ≡ Ok row.merged }
    ensures merged_children { (map_of row.merged).children [] ≡ Some (row.a ∷ []) }
    ensures merged_properties { (map_of row.merged).properties (row.a ∷ []) ≡ Some (row.x ∷ row.y ∷ row.z ∷ []) }
    ensures property_twice { resolved false row.property_twice ≡ Err DuplicateInBody }
    ensures child_twice { resolved false row.child_twice ≡ Err DuplicateInBody }
    ensures phandle_last { resolved false row.phandle_last ≡ Ok row.phandles_last }
    ensures symbols_order { resolved true row.symbols_order ≡ Ok row.symbols_ordered }
    ensures phandle_given_later { resolved false row.phandle_given_later ≡ Ok row.given_later }
    ensures lost_label { resolved false row.lost_label ≡ Err UnknownLabel }
    ensures two_nodes { resolved false row.two_nodes ≡ Err DuplicateLabel }
    ensures root_deleted { resolved false row.root_deleted ≡ Err ReservedName }
    ensures label_given_again { resolved false row.label_given_again ≡ Ok row.given_again }
    ensures overlay { resolved false row.overlay ≡ Ok row.compiled_overlay }
    ensures target_path { resolved false row.target_path ≡ Ok row.targeted }
    ensures fragment_name_again { resolved false row.fragment_name_again ≡ Err ReservedName }
    ensures path_in_plugin { resolved false row.path_in_plugin ≡ Err PathInPlugin }
{}
