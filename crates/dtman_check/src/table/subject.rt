//! What checks look into.

use crate::table::reference::Reference;
use dt_check::Survey;
use dt_live::making::Places;
use std::alloc::Global;

/// A tree, where its source has it, and what `unknown_property` goes by.
#[derive(Clone, Copy)]
pub struct Subject<'a, 't> {
    pub alloc: Global,
    pub survey: &'a Survey<'t>,
    /// Of the survey's nodes, by their places; none where there is no source.
    pub written: Option<&'a Places>,
    pub reference: &'a Reference<'a>,
}
