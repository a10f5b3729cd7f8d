//! Laws of an overlay's result: functions that do nothing, whose contracts are the laws.
ghost use Rattle.dt_overlay.specs.Laws.{AppliedIsUnion, RefusalIsOfAFragment, ResultIsUnion};
ghost use Rattle.dt_overlay.specs.ShiftedPlaces.{ShiftedByPlaces};

/// The result of an overlay is the path-wise union of the base and of each fragment's `__overlay__` with its target's path in front: a
/// later fragment's bytes stand over an earlier one's, all over the base's, the base's names keep their order and new ones follow.
/// Then come the symbols. It is the union by which `Tree::merge` merges.
pub fn result_is_union()
    ensures lists { ResultIsUnion }
    ensures tree { AppliedIsUnion }
{}

/// Where there is no result, *Shifted overlay* is refused, or the first fragment that has no target (41), whose phandle would stand
/// over one of the union so far (45), or with which a node would be too deep (46).
pub fn refusal_is_of_a_fragment()
    ensures { RefusalIsOfAFragment }
{}

/// In a shifted overlay each phandle and each place of `__local_fixups__` is greater by the shift, each place of `__fixups__` holds
/// the phandle of the base's node that its symbol names, and every other byte is the overlay's.
pub fn shifted_by_places()
    ensures { ShiftedByPlaces }
{}
