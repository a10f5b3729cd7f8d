//! A property's value as it is seen: bytes, and the paths of nodes where phandles stand.
ghost use Rattle.std.specs.Prelude.{◌≡◌, ◌<◌, [], length, OnSome};
ghost use Rattle.std.specs.Option.{option_copied};
ghost use Rattle.dtman_blobs.specs.Difference.Named.{named_by};
ghost use Rattle.dtman_blobs.specs.Difference.Seen.{cells_behind, count_in, phandle_part, plain, seen};
ghost use Rattle.dtman_blobs.specs.Difference.Private.Left.{seen_left};
ghost use Rattle.dtman_blobs.specs.Difference.Private.FormView.{form_data};
ghost use Rattle.dtman_blobs.specs.Difference.Private.Sights.{IsCellSplit, IsNextPart};
ghost use Rattle.dtman_blobs.specs.Difference.Private.Tests.{same_part, same_parts};
ghost use Rattle.dtman_blobs.specs.Difference.Private.Views.{part_data};

use crate::difference::form::Form;
use crate::difference::naming::{Named, Naming};
use dt_tree::{cell_at, cell_in};

/// A part of a value: bytes as they are, or the path of a node that a phandle names, of the root nothing.
#[derive(Clone, Copy, Debug)]
pub enum Part<'a> {
    Number(&'a [u8]),
    Node(&'a [u8]),
}

/// What is left of a value.
#[derive(Drop)]
pub struct Seen<'a, 't> {
    naming: &'a Naming<'t>,
    form: Option<Form>,
    left: u32,
    rest: &'a [u8],
}

// The first four bytes, and what is behind them.
fn split_cell(bytes: &[u8]) -> Option<(&[u8], &[u8])>
    ensures { IsCellSplit bytes.now result }
{
    if bytes.len() < 4 {
        return None;
    }
    Some(bytes.split_at(4))
}

fn phandle_part<'a>(cell: &'a [u8], named: Option<&'a Named<'_>>) -> Part<'a>
    ensures { part_data result ≡ phandle_part cell.now (option_copied named.entry) }
{
    match named {
        None => Part::Number(cell),
        Some(named) => Part::Node(named.path()),
    }
}

// What a node says in a property of one cell; 0 where it has none.
fn count_in(named: &Named<'_>, name: &[u8]) -> u32
    ensures { result ≡ count_in named.now name.now }
{
    match named.node().value(name) {
        None => 0,
        Some(value) => cell_in(value.as_slice()).unwrap_or(0),
    }
}

fn cells_behind(form: Form, named: Option<&Named<'_>>) -> u32
    ensures { result ≡ cells_behind (form_data form) (option_copied named.entry) }
{
    match (form, named) {
        (Form::Counted(_), None) => 0,
        (Form::Counted(name), Some(named)) => count_in(named, name),
        (Form::Bare, _) => 0,
        (Form::Mapped, _) => 3,
    }
}

impl<'a, 't> Seen<'a, 't> {
    /// The value of a property of a tree.
    pub fn of(naming: &'a Naming<'t>, name: &[u8], value: &'a [u8]) -> Self
        ensures { seen_left result ≡ seen (named_by naming.now) name.now value.now }
    {
        let form = Form::of(name);
        let left = match form {
            None => 0,
            Some(form) => form.cells_before(),
        };
        Self {
            naming,
            form,
            left,
            rest: value,
        }
    }

    // All that is left, as it is.
    fn take_rest(&mut self) -> Option<Part<'a>>
        ensures part { IsNextPart (plain self.old.rest.now) [] result }
        ensures nothing { seen_left self.new ≡ [] }
        ensures fewer { OnSome result (length self.new.rest.now < length self.old.rest.now) }
    {
        if self.rest.is_empty() {
            return None;
        }
        let rest = self.rest;
        self.rest = &[];
        Some(Part::Number(rest))
    }

    /// The next part.
    pub fn next_part(&mut self) -> Option<Part<'a>>
        ensures part { IsNextPart (seen_left self.old) (seen_left self.new) result }
        ensures fewer { OnSome result (length self.new.rest.now < length self.old.rest.now) }
    {
        let Some(form) = self.form else {
            return self.take_rest();
        };
        let Some((cell, more)) = split_cell(self.rest) else {
            return self.take_rest();
        };
        self.rest = more;
        if self.left > 0 {
            self.left -= 1;
            return Some(Part::Number(cell));
        }
        let named = self.naming.named(cell_at(cell, 0));
        self.left = cells_behind(form, named);
        Some(phandle_part(cell, named))
    }
}

fn is_same(part: Part<'_>, other: Part<'_>) -> bool
    ensures { result ≡ same_part (part_data part.entry) (part_data other.entry) }
{
    match (part, other) {
        (Part::Number(bytes), Part::Number(others)) => bytes == others,
        (Part::Node(path), Part::Node(other)) => path == other,
        _ => false,
    }
}

/// Whether two values are the same as they are seen.
pub fn are_same(mut first: Seen<'_, '_>, mut second: Seen<'_, '_>) -> bool
    ensures { result ≡ same_parts (seen_left first.entry) (seen_left second.entry) }
{
    while let Some(part) = first.next_part() {
        let Some(other) = second.next_part() else {
            return false;
        };
        if !is_same(part, other) {
            return false;
        }
    }
    second.next_part().is_none()
}
