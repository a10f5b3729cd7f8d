//! Faults in the order of the text.
ghost use Rattle.dt_source.specs.Order.{FaultsAreInOrder};

/// The first fault that is met is the first in the text.
pub fn faults_are_in_order()
    ensures { FaultsAreInOrder }
{}
