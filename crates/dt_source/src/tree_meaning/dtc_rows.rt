//! The worked rows of dtc's language, by computation.
ghost use Rattle.std.specs.Prelude.{◌≡◌, Ok, Err, true, false};
ghost use Rattle.dt_source.specs.TreeMeaning.Statements.{BadPhandle, DuplicateInBody, DuplicateLabel};
ghost use Rattle.dt_source.specs.TreeMeaning.BootProcessor.{dtc_boot_processor};
ghost use Rattle.dt_source.specs.TreeMeaning.DtcRows.{says};
ghost use Rattle.dt_source.specs.TreeMeaning.DtcRows as row;

/// What the definitions of dtc's language give is what dtc 1.6.1 answered.
#[tactic(auto, unfolding(crate::specs::TreeMeaning::References::preorder, crate::specs::TreeMeaning::Names::decimal))]
pub fn worked_rows_of_dtc()
    ensures made_again { says false row.made_again ≡ Ok row.made_again_says }
    ensures place_before_it_is_made { says false row.place_before_it_is_made ≡ Ok row.place_before_it_is_made_says }
    ensures first_body_unmakes_nothing { says false row.first_body_unmakes_nothing
        ≡ Ok row.first_body_unmakes_nothing_says }
    ensures hidden_property { says false row.hidden_property ≡ Ok row.hidden_property_says }
    ensures hidden_node { says false row.hidden_node ≡ Ok row.hidden_node_says }
    ensures hidden_node_again { says false row.hidden_node_again ≡ Err DuplicateInBody }
    ensures made_twice { says false row.made_twice ≡ Err DuplicateInBody }
    ensures made_and_unmade { says false row.made_and_unmade ≡ Err DuplicateInBody }
    ensures unmade_twice { says false row.unmade_twice ≡ Err DuplicateInBody }
    ensures last_wins { says false row.last_wins ≡ Ok row.last_wins_says }
    ensures moving_label { says false row.moving_label ≡ Ok row.moving_label_says }
    ensures label_at_two_nodes { says false row.label_at_two_nodes ≡ Err DuplicateLabel }
    ensures first_in_preorder { says false row.first_in_preorder ≡ Ok row.first_in_preorder_says }
    ensures four_labels { says true row.four_labels ≡ Ok row.four_labels_says }
    ensures root_label { says true row.root_label ≡ Ok row.root_label_says }
    ensures by_both_names { says false row.by_both_names ≡ Ok row.by_both_names_says }
    ensures one_number_by_two_names { says false row.one_number_by_two_names ≡ Err BadPhandle }
    ensures asked_for { says false row.asked_for ≡ Ok row.asked_for_says }
    ensures asked_for_and_given { says false row.asked_for_and_given ≡ Ok row.asked_for_and_given_says }
    ensures of_another { says false row.of_another ≡ Err BadPhandle }
    ensures numbered_before_it_goes { says false row.numbered_before_it_goes ≡ Ok row.numbered_before_it_goes_says }
    ensures marked_where_it_is_made { says false row.marked_where_it_is_made ≡ Ok row.marked_where_it_is_made_says }
    ensures marked_by_reference { says false row.marked_by_reference ≡ Ok row.marked_by_reference_says }
    ensures goes_with_what_is_below { says false row.goes_with_what_is_below ≡ Ok row.goes_with_what_is_below_says }
    ensures numbers_go_on { says true row.numbers_go_on ≡ Ok row.numbers_go_on_says }
    ensures last_number_is_free { says true row.last_number_is_free ≡ Ok row.last_number_is_free_says }
    ensures label_that_was_lost { says true row.label_that_was_lost ≡ Ok row.label_that_was_lost_says }
    ensures marked_and_once_labelled { says true row.marked_and_once_labelled ≡ Ok row.marked_and_once_labelled_says }
    ensures name_is_dropped { says false row.name_is_dropped ≡ Ok row.name_is_dropped_says }
    ensures fragment { says false row.fragment ≡ Ok row.fragment_says }
    ensures deleted_first { dtc_boot_processor row.deleted_first ≡ Ok 0 }
    ensures omitted_first { dtc_boot_processor row.omitted_first ≡ Ok 3 }
    ensures reg_in_cells { dtc_boot_processor row.reg_in_cells ≡ Ok 4294967295 }
    ensures reg_outside { dtc_boot_processor row.reg_outside ≡ Ok 5 }
    ensures reg_of_two_cells { dtc_boot_processor row.reg_of_two_cells ≡ Ok 0 }
    ensures place_first { dtc_boot_processor row.place_first ≡ Ok 0 }
    ensures random_1 { says false row.random_1 ≡ Ok row.random_1_says }
    ensures random_2 { says false row.random_2 ≡ Ok row.random_2_says }
    ensures random_3 { says false row.random_3 ≡ Ok row.random_3_says }
    ensures random_4 { says true row.random_4 ≡ Ok row.random_4_says }
    ensures random_5 { says false row.random_5 ≡ Ok row.random_5_says }
    ensures random_6 { says true row.random_6 ≡ Ok row.random_6_says }
    ensures random_7 { says true row.random_7 ≡ Ok row.random_7_says }
    ensures random_8 { says false row.random_8 ≡ Ok row.random_8_says }
    ensures random_9 { says false row.random_9 ≡ Ok row.random_9_says }
{}
