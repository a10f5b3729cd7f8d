//! Paths of the nodes of a survey.
use dt_check::Survey;
use dt_tree::written_paths::{Link, Parents, path_of};
use std::alloc::{AllocError, Global};

#[derive(Drop)]
struct Nodes<'s, 't> {
    survey: &'s Survey<'t>,
}

impl<'t> Parents<'t> for Nodes<'_, 't> {
    fn link(&self, node: usize) -> Option<Link<'t>> {
        let name = self.survey.node(node)?.name_bytes();
        Some(Link {
            name,
            parent: self.survey.above(node).unwrap_or(node),
        })
    }
}

/// The path of the node at a place.
pub fn path_at(alloc: Global, survey: &Survey<'_>, place: usize) -> Result<Vec<u8>, AllocError> {
    path_of(alloc, &Nodes { survey }, place)
}
