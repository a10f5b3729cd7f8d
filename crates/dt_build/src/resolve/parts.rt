//! The targets of the parts of a value.
ghost use Rattle.std.specs.Prelude.{◌≡◌, None, drop, slice_index_or};
ghost use Rattle.dt_build.specs.Resolve.Founds.{all_uses, uses};

use dt_source::Part;
use dt_tree::behind;

/// How many targets a part has.
pub fn target_count(part: &Part<'_>) -> usize
    ensures { result ≡ uses part.now }
{
    match part {
        Part::Bytes(_) => 0,
        Part::Phandle(_) => 1,
        Part::Path(_) => 1,
        Part::File(_) => 0,
    }
}

/// The targets behind those of a value.
pub fn targets_behind<'t>(value: &[Part<'_>], targets: &'t [Option<usize>]) -> &'t [Option<usize>]
    ensures { result.now ≡ drop (all_uses value.now) targets.now }
{
    let mut count = 0;
    for part in value {
        count += target_count(part);
    }
    behind(targets, count)
}

/// The target at a place, none behind the last.
pub fn target_at(targets: &[Option<usize>], place: usize) -> Option<usize>
    ensures { result ≡ slice_index_or targets.now place None }
{
    match targets.get(place) {
        Some(target) => *target,
        None => None,
    }
}
