//! Blobs as views.
ghost use Rattle.std.specs.Prelude.{◌≡◌, ◌⊎◌};
ghost use Rattle.dt_blob.specs.declared.error.BlobError.{BlobError};
ghost use Rattle.dt_tree.specs.TreeData.{TreeData};
ghost use Rattle.dt_blob.specs.HeaderWords.{header_fault};
ghost use Rattle.dt_patch.specs.View.Shows.{IsOver, Shows, Views};
ghost use Rattle.dtman_view_c.specs.Told.{by_fault, done, refused};

use crate::told::{ViewTold, done, refused};
use dt_patch::view::View;

/// The view of a blob, once its tests are passed.
#[unsafe(no_mangle)]
pub extern "C" fn dtman_view_open<'a>(blob: &'a [u8], view: &mut View<'a>) -> ViewTold
    ensures opened { ((result ≡ done 0) × ((tree : TreeData) × Shows blob.now tree × Views view.new tree))
        ⊎ ((error : BlobError) × (result ≡ refused error)) }
    ensures only { (tree : TreeData) → Shows blob.now tree → (result ≡ done 0) × Views view.new tree }
{
    match View::open(blob) {
        Ok(opened) => {
            *view = opened;
            done(0)
        }
        Err(error) => refused(error),
    }
}

/// The view of a blob by the header's tests alone.
#[unsafe(no_mangle)]
pub extern "C" fn dtman_view_over<'a>(blob: &'a [u8], view: &mut View<'a>) -> ViewTold
    ensures shown { (tree : TreeData) → Shows blob.now tree → (result ≡ done 0) × Views view.new tree }
    ensures blocks { result ≡ done 0 → IsOver blob.now view.new }
    ensures fault { result ≡ by_fault (header_fault blob.now) }
{
    match View::over(blob) {
        Ok(opened) => {
            *view = opened;
            done(0)
        }
        Err(error) => refused(error),
    }
}
