//! The strings block: where each name stands, and its bytes.
ghost use Rattle.std.specs.Prelude.{◌≡◌, ℕ, List, ◌+◌, ◌≤◌, ◌<◌, ◌++◌, [], true, Option, None, slice_index_or, length, drop, IfOk, OnOk, MatchResult};
ghost use Rattle.dt_blob.specs.Steps.Answered.{IsTableOf, block_before, names_of};
ghost use Rattle.dt_blob.specs.Blob.{limit};
ghost use Rattle.dt_blob.specs.Strings.{ended, with_name, with_names};
ghost use Rattle.dt_blob.specs.Steps.Table.{ArePlaced, IsTable, IsClosed, Pending, no_zero, placed};
ghost use Rattle.dt_blob.specs.Blob.{Refuses};

use crate::bytes::put_ended;
use crate::error::BlobError;
use crate::names::Names;
use crate::room::add_size;
use dt_tree::Node;
use std::alloc::{AllocError, Global};
use std::hash::RandomState;
use std::marker::Model;

/// Gives a tail that begins at `start` its place, where it is a name that has none.
fn place_tail(names: &Names, places: &mut [Option<usize>], tail: &[u8], start: usize)
    requires room { length places.old ≡ length names.now }
    requires some { 0 < length tail.now }
    ensures { (block : List ℕ) → Pending names.now places.old block start tail.now
        → Pending names.now places.new block (start + 1) (drop 1 tail.now) }
{
    names.check();
    let Some(at) = names.position(tail) else {
        return;
    };
    places[at] = places[at].or(Some(start));
}

/// Gives each tail of a name that begins at `start` its place, where it has none.
fn place_tails(names: &Names, places: &mut [Option<usize>], name: &[u8], start: usize)
    requires room { length places.old ≡ length names.now }
    requires fits { start + length name.now ≤ limit }
    ensures { (block : List ℕ) → length block ≡ start → IsClosed block → no_zero name.now ≡ true
        → IsTable names.now places.old block → IsTable names.now places.new (block ++ ended name.now) }
{
    names.check();
    for skipped in 0..name.len() {
        place_tail(names, places, &name[skipped..], start + skipped);
    }
}

/// Places a name behind `size` bytes, unless it stands among them, and answers how many there are then.
fn place(
    names: &Names,
    places: &mut [Option<usize>],
    at: usize,
    size: usize,
) -> Result<usize, BlobError>
    requires room { length places.old ≡ length names.now }
    requires inside { at < length names.now }
    requires fits { size ≤ limit }
    ensures { (block : List ℕ) → length block ≡ size → IsClosed block → IsTable names.now places.old block
        → IsTableOf names.now places.new (with_name block (slice_index_or names.now at [])) result }
{
    names.check();
    if places[at].is_some() {
        return Ok(size);
    }
    let name = names.get(at);
    let next = add_size(size, 1, name.len())?;
    place_tails(names, places, name, size);
    Ok(next)
}

/// Places the names in order, each where it stands already, else behind the others, and answers the size of the block.
fn place_all(names: &Names, places: &mut [Option<usize>]) -> Result<usize, BlobError>
    requires room { length places.old ≡ length names.now }
    requires nowhere { (i : ℕ) (v : Option ℕ) → i < length names.now → slice_index_or places.old i v ≡ None }
    ensures { IsTableOf names.now places.new (with_names [] names.now) result }
{
    let mut size = 0;
    for at in 0..names.len() {
        size = place(names, places, at, size)?;
    }
    Ok(size)
}

/// The place of each name in the strings block, and the size of the block.
fn places_of(alloc: Global, names: &Names) -> Result<(Vec<Option<usize>>, usize), BlobError>
    ensures { MatchResult result (λ x. ArePlaced names.now x.0.items x.1) (Refuses (length (with_names [] names.now))) }
{
    let mut places = vec![in alloc; None; names.len()]?;
    let size = place_all(names, places.as_mut_slice())?;
    Ok((places, size))
}

/// The names of a tree, and where each stands in the strings block.
#[derive(Drop)]
pub(crate) struct Strings<'a> {
    names: Names<'a>,
    places: Vec<Option<usize>>,
    size: usize,
}

impl<'a> Model for Strings<'a> {
    ghost use Rattle.std.specs.Prelude.{List, ℕ};
    ghost use Rattle.dt_blob.specs.Steps.Table.{ArePlaced};

    ghost Value = { List (List ℕ) };

    ghost view = { λ a. a.names };

    ghost invariant = { λ a. ArePlaced a.names a.places.items a.size };
}

impl<'a> Strings<'a> {
    /// Those of a root and all below it.
    pub(crate) fn new(alloc: Global, hasher: RandomState, root: &'a Node) -> Result<Self, BlobError>
        ensures { MatchResult result (λ strings. strings ≡ names_of root.now)
            (Refuses (length (with_names [] (names_of root.now)))) }
    {
        let names = Names::below(alloc, hasher, root)?;
        let (places, size) = places_of(alloc, &names)?;
        Ok(Self {
            names,
            places,
            size,
        })
    }

    /// The size of the block.
    pub(crate) fn size(&self) -> usize
        ensures value { result ≡ length (with_names [] self.now) }
        ensures bound { result ≤ limit }
    {
        self.size
    }

    /// The offset of a name; 0 for one that isn't the tree's.
    pub(crate) fn offset(&self, name: &[u8]) -> usize
        ensures value { result ≡ placed self.now name.now }
        ensures bound { result ≤ limit }
    {
        self.names.check();
        match self.names.position(name) {
            None => 0,
            Some(at) => self.places[at].unwrap_or(0),
        }
    }

    /// Writes the name at `at`, where it begins behind `size` bytes, and answers how many there are then.
    fn put_name(&self, out: &mut Vec<u8>, at: usize, size: usize) -> Result<usize, AllocError>
        requires inside { at < length self.now }
        requires behind { size ≡ length (block_before at self.now) }
        ensures { (whole : List ℕ) → out.old.items ≡ whole ++ block_before at self.now
            → IfOk result (λ next. (next ≡ length (block_before (at + 1) self.now))
            × (out.new.items ≡ whole ++ block_before (at + 1) self.now)) }
    {
        self.names.check();
        let place = self.places[at].unwrap_or(0);
        if place != size {
            return Ok(size);
        }
        let name = self.names.get(at);
        put_ended(out, name)?;
        Ok(size + name.len() + 1)
    }

    /// Writes the block: each name that begins where those before it end.
    pub(crate) fn put(&self, out: &mut Vec<u8>) -> Result<(), AllocError>
        ensures { OnOk result (out.new.items ≡ out.old.items ++ with_names [] self.now) }
    {
        let mut size = 0;
        for at in 0..self.names.len() {
            size = self.put_name(out, at, size)?;
        }
        Ok(())
    }
}
