//! The path of a node of a survey.
ghost use Rattle.std.specs.Prelude.{◌≡◌, ◌++◌, OnOk};
ghost use Rattle.dt_questions.specs.Paths.{name_at, most_levels, names_within, path_at};

use dt_check::Survey;
use std::alloc::AllocError;

/// More levels than any tree has.
pub fn most_levels() -> usize
    ensures { result ≡ most_levels }
{
    66
}

/// The name of a node, none for the root.
pub fn name_at<'t>(survey: &Survey<'t>, place: usize) -> &'t [u8]
    ensures { result.now ≡ name_at survey.now place }
{
    match survey.node(place) {
        None => &[],
        Some(node) => node.name_bytes(),
    }
}

// Adds the names from the root to a node, each behind a slash.
fn add_names(
    text: &mut Vec<u8>,
    survey: &Survey<'_>,
    levels: usize,
    place: usize,
) -> Result<(), AllocError>
    ensures { OnOk result (text.new.items ≡ text.old.items ++ names_within survey.now levels place) }
{
    if levels == 0 {
        return Ok(());
    }
    let Some(above) = survey.above(place) else {
        return Ok(());
    };
    add_names(text, survey, levels - 1, above)?;
    text.push(b'/')?;
    text.extend_from_slice(name_at(survey, place))?;
    Ok(())
}

/// Adds the path of a node.
pub fn add_path(text: &mut Vec<u8>, survey: &Survey<'_>, place: usize) -> Result<(), AllocError>
    ensures { OnOk result (text.new.items ≡ text.old.items ++ path_at survey.now place) }
{
    if survey.above(place).is_none() {
        text.push(b'/')?;
        return Ok(());
    }
    add_names(text, survey, most_levels(), place)
}
