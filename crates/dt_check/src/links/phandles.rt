//! Phandles that are given (Devicetree Specification v0.4, section 2.3.3).
ghost use Rattle.std.specs.Prelude.{◌≡◌};
ghost use Rattle.dt_check.specs.Links.Phandles.{number_fault, phandle_fault, given, different_fault, twice_fault, own_phandle};

use crate::links::lists::is_no_phandle;
use crate::{Fault, Here, Message, Survey};
use dt_tree::cell_in;

fn number_fault<'t>(name: &'t [u8], value: &[u8]) -> Option<Fault<'t>>
    ensures { result ≡ number_fault name.now value.now }
{
    let Some(number) = cell_in(value) else {
        return Some(Fault::of_property(name, Message::PhandleLength(value.len())));
    };
    if is_no_phandle(number) {
        return Some(Fault::of_property(name, Message::PhandleValue(number)));
    }
    None
}

/// What is wrong with the phandle under this name.
pub fn phandle_fault<'t>(here: &Here<'_>, name: &'t [u8]) -> Option<Fault<'t>>
    ensures { result ≡ phandle_fault name.now here.now }
{
    match here.value(name) {
        None => None,
        Some(value) => number_fault(name, value.as_slice()),
    }
}

// The phandle under this name.
fn given(here: &Here<'_>, name: &[u8]) -> Option<u32>
    ensures { result ≡ given name.now here.now }
{
    let Some(value) = here.value(name) else {
        return None;
    };
    let Some(number) = cell_in(value.as_slice()) else {
        return None;
    };
    if is_no_phandle(number) {
        return None;
    }
    Some(number)
}

/// Two phandles that differ.
pub fn different_fault(here: &Here<'_>) -> Option<Fault<'static>>
    ensures { result ≡ different_fault here.now }
{
    let Some(phandle) = given(here, b"phandle") else {
        return None;
    };
    let Some(old) = given(here, b"linux,phandle") else {
        return None;
    };
    if phandle == old {
        return None;
    }
    Some(Fault::of_node(Message::PhandlesDiffer))
}

fn own_phandle(here: &Here<'_>) -> Option<u32>
    ensures { result ≡ own_phandle here.now }
{
    match given(here, b"phandle") {
        None => given(here, b"linux,phandle"),
        Some(phandle) => Some(phandle),
    }
}

/// A phandle that another node has before.
pub fn twice_fault(survey: &Survey<'_>, here: &Here<'_>, place: usize) -> Option<Fault<'static>>
    ensures { result ≡ twice_fault survey.now here.now place }
{
    let Some(phandle) = own_phandle(here) else {
        return None;
    };
    let Some(node) = survey.with_phandle(phandle) else {
        return None;
    };
    if node == place {
        return None;
    }
    Some(Fault::of_node(Message::PhandleTwice { phandle, node }))
}
