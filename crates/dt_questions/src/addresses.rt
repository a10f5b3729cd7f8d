//! Where an address of a bus lies for the processors (Devicetree Specification v0.4, section 2.3.8).
ghost use Rattle.std.specs.Prelude.{◌≡◌, ◌<◌, ◌^◌, IfSome, codes};
ghost use Rattle.dt_questions.specs.Addresses.{address_at, as_address, cells_between, lifted, most_rows, moved, moved_within, number_in, pair_in, raised, raised_within, row_len, size_at, through, window_in};

use crate::nodes::cells_at;
use crate::paths::most_levels;
use dt_check::{Survey, cell_from};
use dt_tree::behind;
use std::marker::Model;

/// How many cells the parts of a row of `ranges` have: the address below, the address above, the size.
#[derive(Drop)]
struct Cells {
    child: u32,
    parent: u32,
    size: u32,
}

impl Model for Cells {
    ghost use Rattle.dt_questions.specs.Addresses.{RowCells};

    ghost Value = { RowCells };

    ghost view = { λ c. record { child = c.child; parent = c.parent; size = c.size } };
}

/// So many bytes from `child` on lie at `parent` on the bus above.
#[derive(Drop)]
struct Window {
    child: u64,
    parent: u64,
    size: u64,
}

impl Model for Window {
    ghost use Rattle.dt_questions.specs.Addresses.{WindowData};

    ghost Value = { WindowData };

    ghost view = { λ w. record { child = w.child; parent = w.parent; size = w.size } };
}

/// The cells of addresses below a node.
pub fn address_at(survey: &Survey<'_>, place: usize) -> u32
    ensures { result ≡ address_at survey.now place }
{
    cells_at(survey, place, b"#address-cells").unwrap_or(2)
}

/// The cells of sizes below a node.
pub fn size_at(survey: &Survey<'_>, place: usize) -> u32
    ensures { result ≡ size_at survey.now place }
{
    cells_at(survey, place, b"#size-cells").unwrap_or(1)
}

fn pair_in(bytes: &[u8]) -> Option<u64>
    ensures { result ≡ pair_in bytes.now }
{
    let Some(high) = cell_from(bytes, 0) else {
        return None;
    };
    match cell_from(bytes, 4) {
        None => None,
        Some(low) => Some(u64::from(high) * 4_294_967_296 + u64::from(low)),
    }
}

/// The number of one or two cells in front; none of more, and none where the bytes are too few.
pub fn number_in(cells: u32, bytes: &[u8]) -> Option<u64>
    ensures { result ≡ number_in cells bytes.now }
{
    if cells == 1 {
        return match cell_from(bytes, 0) {
            None => None,
            Some(cell) => Some(u64::from(cell)),
        };
    }
    if cells == 2 {
        return pair_in(bytes);
    }
    None
}

// How many bytes a row has.
fn row_len(cells: &Cells) -> usize
    ensures value { result ≡ row_len cells.now }
    ensures few { result < 2 ^ 36 }
{
    4 * (cells.child as usize + cells.parent as usize + cells.size as usize)
}

fn window_in(cells: &Cells, row: &[u8]) -> Option<Window>
    ensures { result ≡ window_in cells.now row.now }
{
    let parents = 4 * cells.child as usize;
    let sizes = 4 * (cells.child as usize + cells.parent as usize);
    let Some(child) = number_in(cells.child, row) else {
        return None;
    };
    let Some(parent) = number_in(cells.parent, behind(row, parents)) else {
        return None;
    };
    match number_in(cells.size, behind(row, sizes)) {
        None => None,
        Some(size) => Some(Window {
            child,
            parent,
            size,
        }),
    }
}

// Where an address lies that this window has.
fn moved(window: &Window, address: u64) -> Option<u64>
    ensures { result ≡ moved window.now address }
{
    if window.child <= address && address - window.child < window.size {
        return window.parent.checked_add(address - window.child);
    }
    None
}

/// How many rows of `ranges` are looked at.
pub fn most_rows() -> usize
    ensures { result ≡ most_rows }
{
    256
}

fn moved_within(cells: &Cells, most: usize, rows: &[u8], address: u64) -> Option<u64>
    ensures { result ≡ moved_within cells.now most rows.now address }
{
    let mut rest = rows;
    let mut left = most;
    while left > 0 {
        left -= 1;
        let Some(window) = window_in(cells, rest) else {
            return None;
        };
        if let Some(found) = moved(&window, address) {
            return Some(found);
        }
        rest = behind(rest, row_len(cells));
    }
    None
}

fn cells_between(survey: &Survey<'_>, bus: usize, above: usize) -> Cells
    ensures { result ≡ cells_between survey.now bus above }
{
    Cells {
        child: address_at(survey, bus),
        parent: address_at(survey, above),
        size: size_at(survey, bus),
    }
}

fn through(survey: &Survey<'_>, bus: usize, above: usize, rows: &[u8], address: u64) -> Option<u64>
    ensures { result ≡ through survey.now bus above rows.now address }
{
    if rows.is_empty() {
        return Some(address);
    }
    moved_within(
        &cells_between(survey, bus, above),
        most_rows(),
        rows,
        address,
    )
}

// Where an address of a bus lies on the bus above.
fn lifted(survey: &Survey<'_>, bus: usize, above: usize, address: u64) -> Option<u64>
    ensures { result ≡ lifted survey.now bus above address }
{
    match survey.value(bus, b"ranges") {
        None => None,
        Some(rows) => through(survey, bus, above, rows.as_slice(), address),
    }
}

fn raised_within(survey: &Survey<'_>, levels: usize, bus: usize, address: u64) -> Option<u64>
    ensures { result ≡ raised_within survey.now levels bus address }
{
    if levels == 0 {
        return None;
    }
    let Some(above) = survey.above(bus) else {
        return Some(address);
    };
    match lifted(survey, bus, above, address) {
        None => None,
        Some(up) => raised_within(survey, levels - 1, above, up),
    }
}

/// Where an address of the bus at a place lies for the processors: none where no bus above hands it on, or beyond 64 bits.
pub fn raised(survey: &Survey<'_>, bus: usize, address: u64) -> Option<u64>
    ensures { result ≡ raised survey.now bus address }
{
    raised_within(survey, most_levels(), bus, address)
}
