//! Which checks warn and which are errors.
ghost use Rattle.std.specs.Prelude.{◌≡◌, IfOk, map};
ghost use Rattle.std.specs.List.{list_any, position_from};
ghost use Rattle.dtman_check.specs.Table.Selected.{usual, usual_levels, is_among, stands_on, goes_along, goes, level_with, is_so, changed_at, changed_from, is_asked, is_against, is_called, name_in, check_of};
ghost use Rattle.dtman_check.specs.Table.Checks.{checks};
ghost use Rattle.dtman_check.specs.Table.CheckView.{check_data};

use crate::table::check::{Check, Severity};
use crate::table::table::{CHECK_COUNT, PARTS, UNKNOWN_PROPERTY, part};
use dt_check::is_same;
use std::alloc::{AllocError, Global};
use std::marker::Model;

/// What a mistake that a check finds comes to: both may be so, and then it is an error.
#[derive(Clone, Copy, Debug, PartialEq, Eq)]
pub struct Level {
    pub warns: bool,
    pub fails: bool,
}

/// What mistakes are looked for.
#[derive(Clone, Copy, Debug, PartialEq, Eq)]
pub enum Least {
    /// Those that come to a warning or an error.
    Warning,
    /// Errors alone.
    Error,
}

/// What an option speaks of.
#[derive(Clone, Copy, Debug, PartialEq, Eq)]
pub enum Kind {
    /// Whether a check warns (`-W`).
    Warning,
    /// Whether it is an error (`-E`).
    Error,
}

/// What an option asks: whether a check, by its place in the table, is of a kind.
#[derive(Clone, Copy, Debug)]
pub struct Change {
    pub kind: Kind,
    pub check: usize,
    pub on: bool,
}

impl Level {
    /// Whether a check whose mistakes come to this is asked for.
    pub fn is_asked(self, least: Least) -> bool
        ensures { result ≡ is_asked least self }
    {
        match least {
            Least::Warning => self.warns || self.fails,
            Least::Error => self.fails,
        }
    }

    fn is_so(self, kind: Kind) -> bool
        ensures { result ≡ is_so kind self }
    {
        match kind {
            Kind::Warning => self.warns,
            Kind::Error => self.fails,
        }
    }

    fn with(self, kind: Kind, on: bool) -> Level
        ensures { result ≡ level_with kind on self }
    {
        match kind {
            Kind::Warning => Level {
                warns: on,
                fails: self.fails,
            },
            Kind::Error => Level {
                warns: self.warns,
                fails: on,
            },
        }
    }
}

fn any_asked(levels: &[Level], least: Least) -> bool
    ensures { result ≡ list_any (is_asked least) levels.now }
{
    levels.iter().any(|level| level.is_asked(least))
}

fn usual(severity: Severity) -> Level
    ensures { result ≡ usual severity }
{
    match severity {
        Severity::Off => Level {
            warns: false,
            fails: false,
        },
        Severity::Warning => Level {
            warns: true,
            fails: false,
        },
        Severity::Error => Level {
            warns: false,
            fails: true,
        },
    }
}

fn usual_levels(alloc: Global, rows: &[Check]) -> Result<Vec<Level>, AllocError>
    ensures { IfOk result (λ levels. levels.items ≡ usual_levels rows.now) }
{
    let mut levels = Vec::with_capacity(alloc, rows.len())?;
    for row in rows {
        levels.push(usual(row.severity))?;
    }
    Ok(levels)
}

fn is_among(places: &[usize], wanted: usize) -> bool
    ensures { result ≡ is_among places.now wanted }
{
    places.iter().any(|place| *place == wanted)
}

// Whether the check at a place stands on another.
fn stands_on(rows: &[Check], one: usize, other: usize) -> bool
    ensures { result ≡ stands_on rows.now one other }
{
    match rows.get(one) {
        None => false,
        Some(row) => is_among(row.made_before, other),
    }
}

fn goes_along(rows: &[Check], change: Change, place: usize) -> bool
    ensures { result ≡ goes_along rows.now change place }
{
    if change.on {
        stands_on(rows, change.check, place)
    } else {
        stands_on(rows, place, change.check)
    }
}

fn goes(rows: &[Check], change: Change, place: usize) -> bool
    ensures { result ≡ goes rows.now change place }
{
    place == change.check || goes_along(rows, change, place)
}

fn changed_at(rows: &[Check], change: Change, place: usize, level: Level) -> Level
    ensures { result ≡ changed_at rows.now change place level }
{
    if goes(rows, change, place) {
        level.with(change.kind, change.on)
    } else {
        level
    }
}

fn changed(
    alloc: Global,
    rows: &[Check],
    change: Change,
    levels: &[Level],
) -> Result<Vec<Level>, AllocError>
    ensures { IfOk result (λ new. new.items ≡ changed_from rows.now change 0 levels.now) }
{
    let mut new = Vec::with_capacity(alloc, levels.len())?;
    for (place, level) in levels.iter().enumerate() {
        new.push(changed_at(rows, change, place, *level))?;
    }
    Ok(new)
}

fn all_rows(alloc: Global) -> Result<Vec<Check>, AllocError>
    ensures { IfOk result (λ rows. map check_data rows.items ≡ checks) }
{
    let mut rows = Vec::with_capacity(alloc, CHECK_COUNT)?;
    for number in 0..PARTS {
        rows.extend_from_slice(part(number))?;
    }
    Ok(rows)
}

// The check of a name, by its place in these rows.
fn place_in(rows: &[Check], name: &[u8]) -> Option<usize>
    ensures { result ≡ position_from (is_called name.now) 0 (map check_data rows.now) }
{
    for (place, row) in rows.iter().enumerate() {
        if is_same(row.name.as_bytes(), name) {
            return Some(place);
        }
    }
    None
}

// Whether a word is a name behind `no-`.
fn is_against(word: &[u8]) -> bool
    ensures { result ≡ is_against word.now }
{
    word.starts_with(b"no-") || word.starts_with(b"no_")
}

fn name_in(word: &[u8]) -> &[u8]
    ensures { result.now ≡ name_in word.now }
{
    if is_against(word) { &word[3..] } else { word }
}

/// The checks that are asked for.
#[derive(Drop)]
pub struct Selection {
    alloc: Global,
    rows: Vec<Check>,
    levels: Vec<Level>,
}

impl Model for Selection {
    ghost use Rattle.std.specs.Prelude.{◌≡◌, map};
    ghost use Rattle.dtman_check.specs.Table.Checks.{checks};
    ghost use Rattle.dtman_check.specs.Table.CheckView.{check_data};
    ghost use Rattle.dtman_check.specs.Table.Selected.{SelectionData};

    ghost Value = { SelectionData };

    ghost view = { λ s. record { rows = s.rows.items; levels = s.levels.items } };

    // The table is dtc's, row by row.
    ghost invariant = { λ s. map check_data s.rows.items ≡ checks };
}

impl Selection {
    ghost use Rattle.std.specs.Prelude.{not, true, OnOk, OnErr, is_some, slice_get};
    ghost use Rattle.std.specs.Option.{option_copied};
    ghost use Rattle.dtman_check.specs.Table.Selected.{level_at, asks_for, any_asks_for, is_done, is_due, changed, applied};

    /// dtc's own.
    pub fn usual(alloc: Global) -> Result<Self, AllocError>
        ensures { IfOk result (λ selection. selection.levels ≡ usual_levels selection.rows) }
    {
        let rows = all_rows(alloc)?;
        let levels = usual_levels(alloc, rows.as_slice())?;
        Ok(Self {
            alloc,
            rows,
            levels,
        })
    }

    /// The table.
    pub fn rows(&self) -> &[Check]
        ensures rows { result.now ≡ self.now.rows }
        ensures checks { map check_data self.now.rows ≡ checks }
    {
        self.rows.as_slice()
    }

    /// The check at a place of it.
    pub fn row(&self, place: usize) -> Option<&Check>
        ensures { option_copied result ≡ slice_get self.now.rows place }
    {
        self.rows.get(place)
    }

    /// What a check's mistakes come to.
    pub fn level(&self, check: usize) -> Level
        ensures { result ≡ level_at self.now.levels check }
    {
        match self.levels.get(check) {
            Some(level) => *level,
            None => usual(Severity::Off),
        }
    }

    // Whether a check is asked for and stands on that at a place.
    fn asks_for(&self, least: Least, place: usize, above: usize, row: &Check) -> bool
        ensures { result ≡ asks_for least self.now.levels place above row.now }
    {
        self.level(above).is_asked(least) && is_among(row.made_before, place)
    }

    fn any_asks_for(&self, least: Least, place: usize) -> bool
        ensures { result ≡ any_asks_for least self.now.levels place 0 self.now.rows }
    {
        for (above, row) in self.rows.iter().enumerate() {
            if self.asks_for(least, place, above, row) {
                return true;
            }
        }
        false
    }

    /// Whether a check is made: where it is asked for, or one that stands on it.
    pub fn is_due(&self, least: Least, place: usize) -> bool
        ensures { result ≡ is_due least self.now place }
    {
        self.level(place).is_asked(least) || self.any_asks_for(least, place)
    }

    /// Whether no check is asked for.
    pub fn is_empty(&self, least: Least) -> bool
        ensures { result ≡ not (list_any (is_asked least) self.now.levels) }
    {
        !any_asked(self.levels.as_slice(), least)
    }

    fn is_done(&self, change: Change) -> bool
        ensures { result ≡ is_done self.now.levels change }
    {
        let is_so = self.level(change.check).is_so(change.kind);
        if change.on { is_so } else { !is_so }
    }

    /// Does what an option asks: with a check go those that it stands on, or that stand on it. What is so already stays, with all
    /// that would go along; for want of memory all stays.
    pub fn change(&mut self, change: Change) -> Result<(), AllocError>
        ensures done { OnOk result (self.new ≡ changed change self.old) }
        ensures refused { OnErr result (self.new ≡ self.old) }
    {
        if self.is_done(change) {
            return Ok(());
        }
        self.levels = changed(
            self.alloc,
            self.rows.as_slice(),
            change,
            self.levels.as_slice(),
        )?;
        Ok(())
    }

    /// Asks for `unknown_property`.
    pub fn ask_unknown(&mut self, kind: Kind) -> Result<(), AllocError>
        ensures done { OnOk result
            (self.new ≡ changed (record { kind = kind; check = UNKNOWN_PROPERTY; on = true }) self.old) }
        ensures refused { OnErr result (self.new ≡ self.old) }
    {
        self.change(Change {
            kind,
            check: UNKNOWN_PROPERTY,
            on: true,
        })
    }

    /// Whether `unknown_property` is asked for.
    pub fn asks_unknown(&self) -> bool
        ensures { result ≡ is_asked Least.Warning (level_at self.now.levels UNKNOWN_PROPERTY) }
    {
        self.level(UNKNOWN_PROPERTY).is_asked(Least::Warning)
    }

    // The check of a name: `unknown_property` is asked for by its reference set alone.
    fn place_of(&self, name: &[u8]) -> Option<usize>
        ensures { result ≡ check_of name.now }
    {
        place_in(&self.rows[..UNKNOWN_PROPERTY], name)
    }

    /// Takes the word of an option: a check's name, or one behind `no-`, by which it goes. Says whether there is such a check; else
    /// nothing changes, nor for want of memory.
    pub fn apply(&mut self, kind: Kind, word: &str) -> Result<bool, AllocError>
        ensures known { IfOk result (λ known. known ≡ is_some (check_of (name_in word.now))) }
        ensures done { OnOk result (self.new ≡ applied kind word.now self.old) }
        ensures refused { OnErr result (self.new ≡ self.old) }
    {
        let word = word.as_bytes();
        let Some(check) = self.place_of(name_in(word)) else {
            return Ok(false);
        };
        let on = !is_against(word);
        self.change(Change { kind, check, on })?;
        Ok(true)
    }
}
