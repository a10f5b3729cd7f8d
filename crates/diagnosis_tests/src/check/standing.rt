//! What checks stand on: `made_before` of each is what its prerequisites take, and theirs, each once, and before it in the table.

use dtman_check::table::{CHECK_COUNT, Check, check_at};
use std::process::Abort;

fn check(rt: &impl Abort, place: usize) -> &'static Check {
    check_at(place).expect(rt, "a check")
}

fn is_among(places: &[usize], wanted: usize) -> bool {
    places.iter().any(|place| *place == wanted)
}

// Whether one of these checks is the wanted one or stands on it.
fn lead_to(rt: &impl Abort, places: &[usize], wanted: usize) -> bool {
    places.iter().any(|place| *place == wanted || is_among(check(rt, *place).made_before, wanted))
}

fn is_whole(rt: &impl Abort, place: usize) {
    let Check {
        name,
        prerequisites,
        made_before,
        ..
    } = *check(rt, place);
    for other in 0..CHECK_COUNT {
        let wanted = lead_to(rt, prerequisites, other);
        assert!(rt; is_among(made_before, other) == wanted, "{name} {other}");
    }
    for (index, other) in made_before.iter().enumerate() {
        let before = made_before.get(..index).unwrap_or(&[]);
        assert!(rt;
            !is_among(before, *other) && *other < place,
            "{name} {other}"
        );
        for needed in check(rt, *other).prerequisites {
            assert!(rt; is_among(before, *needed), "{name} {other} {needed}");
        }
    }
}

#[test]
fn checks_are_made_behind_what_they_stand_on(rt: HostRuntime) {
    for place in 0..CHECK_COUNT {
        is_whole(&rt, place);
    }
}
