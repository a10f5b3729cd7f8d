//! The worked rows, by computation.
ghost use Rattle.std.specs.Prelude.{◌≡◌, ◌++◌, Ok, Err, codes};
ghost use Rattle.dt_source.specs.OverlayMeaning.Fault.{NotOverlay, NoTarget, UnknownSymbol, BadFixup, PhandleOverflow, PhandleClash};
ghost use Rattle.dt_source.specs.OverlayMeaning.Applied.{overlay_result};
ghost use Rattle.dt_source.specs.OverlayMeaning.Rows.{base, overlay, applied, with_symbols, applied_with_symbols, by_path, by_path_applied, later, later_applied, extends, extends_applied, other_order, fixed, great, greatest, cut, twice, renumbers, equals, great_sites, cell};

/// What the definitions give is what was worked by hand.
pub fn worked_rows()
    ensures overlay_pair { overlay_result base overlay ≡ Ok applied }
    ensures with_symbols { overlay_result base with_symbols ≡ Ok applied_with_symbols }
    ensures target_path { overlay_result base (by_path (codes "/ocp")) ≡ Ok by_path_applied }
    ensures not_an_overlay { overlay_result base base ≡ Err NotOverlay }
    ensures later { overlay_result base later ≡ Ok later_applied }
    ensures extends { overlay_result base extends ≡ Ok extends_applied }
    ensures other_order { overlay_result base other_order ≡ Err NoTarget }
    ensures two_zeros { overlay_result base (fixed (codes "ocp") (codes "/fragment@0:target:00")) ≡ Ok applied }
    ensures past_the_end { overlay_result base (fixed (codes "ocp") (codes "/fragment@0:target:1")) ≡ Err BadFixup }
    ensures far { overlay_result base (fixed (codes "ocp") (codes "/fragment@0:target:4294967295")) ≡ Err BadFixup }
    ensures digits { overlay_result base (fixed (codes "ocp") (codes "/fragment@0:target:00000000000")) ≡ Err BadFixup }
    ensures twice { overlay_result base twice ≡ Err BadFixup }
    ensures nix { overlay_result base (fixed (codes "ocp") (codes "/nix:target:0")) ≡ Err BadFixup }
    ensures renamed { overlay_result base (fixed (codes "nix") (codes "/fragment@0:target:0")) ≡ Err UnknownSymbol }
    ensures cut { overlay_result base cut ≡ Err BadFixup }
    ensures great { overlay_result base (great 252) ≡ Ok greatest }
    ensures too_great { overlay_result base (great 253) ≡ Err PhandleOverflow }
    ensures no_target { overlay_result base (by_path (codes "/nix")) ≡ Err NoTarget }
    ensures renumbers { overlay_result base renumbers ≡ Err PhandleClash }
    ensures equals { overlay_result base equals ≡ Err PhandleClash }
    ensures great_first { overlay_result base (great_sites (cell 0 ++ cell 1)) ≡ Err PhandleOverflow }
    ensures overlap_first { overlay_result base (great_sites (cell 4 ++ cell 1)) ≡ Err BadFixup }
{}
