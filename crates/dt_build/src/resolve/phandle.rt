//! The phandle in the value of a property.
ghost use Rattle.std.specs.Prelude.{◌≡◌, map};
ghost use Rattle.dt_source.specs.TreeMeaning.Phandles.{phandle_value};
ghost use Rattle.dt_source.specs.Tree.{part_view};

use dt_source::Part;
use dt_tree::phandle_in;

/// The phandle that a value gives: four plain bytes, the greatest first, that are neither 0 nor 0xffffffff.
pub(crate) fn phandle_value(value: &[Part<'_>]) -> Option<u32>
    ensures { result ≡ phandle_value (map part_view value.now) }
{
    if value.len() != 1 {
        return None;
    }
    match &value[0] {
        Part::Bytes(bytes) => phandle_in(bytes.as_slice()),
        _ => None,
    }
}
