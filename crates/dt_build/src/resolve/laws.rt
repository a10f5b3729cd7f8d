//! Laws of phandles: functions that do nothing, whose contracts are the laws.
ghost use Rattle.dt_build.specs.Resolve.Laws.{GivesEachNode, GivesKthFree, IsOneNumber};

/// The k-th node that wants a phandle gets the k-th positive number that isn't given, and there is one such number.
pub fn phandles_in_order()
    ensures nodes { GivesEachNode }
    ensures numbers { GivesKthFree }
    ensures one { IsOneNumber }
{}
