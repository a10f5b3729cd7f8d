//! From a blob to the lines of its findings.
ghost use Rattle.std.specs.Prelude.{◌≡◌, ◌==◌, false, IfOk};
ghost use Rattle.std.specs.Option.{option_copied, option_map_or};
ghost use Rattle.dt_tree.specs.TreeData.{TreeData};
ghost use Rattle.dt_blob.specs.Holds.{Holds};
ghost use Rattle.dtman_check.specs.Table.Selected.{level_at};
ghost use Rattle.dtman_check.specs.Answers.{least_of, has_line, is_added, written_count, nodes_in, Judges};
ghost use Rattle.dtman_check.specs.Sources.{places_in};

use crate::line::{Shape, put_line};
use crate::places::{Located, locate_findings};
use crate::table::{Finding, Least, Reference, Selection, Subject, run_checks};
use crate::writer::Writer;
use dt_blob::{BlobError, read};
use dt_check::{Placed, Survey};
use dt_live::making::Places;
use dt_tree::Tree;
use std::alloc::{AllocError, Global};
use std::hash::RandomState;

/// The source that a tree was made of.
#[derive(Clone, Copy)]
pub struct Source<'a> {
    /// With all that it takes in, 16 MiB at most.
    pub text: &'a [u8],
    /// Where it has the tree.
    pub places: &'a Places,
}

/// What is asked of the lines.
#[derive(Clone, Copy)]
pub struct Asked<'a> {
    /// What the file is called.
    pub file: &'a [u8],
    /// Whose lines are told, where there is one.
    pub source: Option<Source<'a>>,
    /// What `unknown_property` goes by.
    pub reference: &'a Reference<'a>,
    pub shape: Shape,
    /// How often it is asked to say less: once, and warnings are left out; twice, and errors too.
    pub quiet: usize,
}

impl<'a> Asked<'a> {
    /// Of a file, by what `unknown_property` goes by: plain lines of all, without places.
    pub fn of(file: &'a [u8], reference: &'a Reference<'a>) -> Self
        ensures file { result.file ≡ file.entry }
        ensures source { result.source ≡ None }
        ensures reference { result.reference ≡ reference.entry }
        ensures shape { (result.shape ≡ Shape.Plain) × (result.quiet ≡ 0) }
    {
        Self {
            file,
            source: None,
            reference,
            shape: Shape::Plain,
            quiet: 0,
        }
    }

    /// With the places of a source.
    pub fn in_source(self, source: Source<'a>) -> Self
        ensures { result ≡ record self.entry { source = Some source.entry } }
    {
        Self {
            file: self.file,
            source: Some(source),
            reference: self.reference,
            shape: self.shape,
            quiet: self.quiet,
        }
    }

    /// In this shape, and so quiet.
    pub fn shaped(self, shape: Shape, quiet: usize) -> Self
        ensures { result ≡ record self.entry { shape = shape; quiet = quiet } }
    {
        Self {
            file: self.file,
            source: self.source,
            reference: self.reference,
            shape,
            quiet,
        }
    }
}

/// What the checks of a tree told.
#[derive(Drop)]
pub struct Answer {
    pub text: Vec<u8>,
    /// Whether one is an error.
    pub failed: bool,
}

fn has_line(selection: &Selection, check: usize, quiet: usize) -> bool
    ensures { result ≡ has_line quiet (level_at selection.now.levels check) }
{
    let level = selection.level(check);
    (level.warns && quiet < 1) || (level.fails && quiet < 2)
}

/// What a mistake comes to at least that is looked for: who is asked to say less looks for errors alone.
pub fn least_of(quiet: usize) -> Least
    ensures { result ≡ least_of quiet }
{
    if quiet < 1 {
        return Least::Warning;
    }
    Least::Error
}

fn put_findings(
    alloc: Global,
    writer: &mut Writer,
    survey: &Survey<'_>,
    selection: &Selection,
    findings: &[Finding<'_>],
    asked: Asked<'_>,
) -> Result<(), AllocError> {
    let places = places_of(alloc, survey, findings, asked)?;
    for (index, finding) in findings.iter().enumerate() {
        if has_line(selection, finding.check, asked.quiet) {
            let located = places.get(index).copied().unwrap_or(nowhere());
            put_line(alloc, writer, survey, selection, asked, finding, located)?;
        }
    }
    Ok(())
}

fn nowhere<'a>() -> Located<'a> {
    Located {
        own: None,
        above: None,
    }
}

// Where findings stand in the text: nowhere where there is none.
fn places_of<'a>(
    alloc: Global,
    survey: &Survey<'_>,
    findings: &[Finding<'_>],
    asked: Asked<'a>,
) -> Result<Vec<Located<'a>>, AllocError> {
    match asked.source {
        Some(source) if !findings.is_empty() && asked.quiet < 2 => {
            locate_findings(alloc, asked.file, source, survey, findings)
        }
        _ => Ok(Vec::new(alloc)),
    }
}

// Whether a node below the root is none of the text's: what a compiler adds of its own, behind all others.
fn is_added(places: &Places, place: usize, placed: &Placed<'_>) -> bool
    ensures { result ≡ is_added places.now place placed.now }
{
    let at = match places.nodes.get(place) {
        None => 0,
        Some(at) => *at,
    };
    at == 0 && is_below_root(placed.above())
}

fn is_below_root(above: Option<usize>) -> bool
    ensures { result ≡ option_map_or (λ place. place == 0) above false }
{
    match above {
        None => false,
        Some(place) => place == 0,
    }
}

// How many nodes stand before the first that is added.
fn written_count(survey: &Survey<'_>, places: &Places) -> usize
    ensures { result ≡ written_count places.now 0 survey.now }
{
    let nodes = survey.as_slice();
    for (place, placed) in nodes.iter().enumerate() {
        if is_added(places, place, placed) {
            return place;
        }
    }
    nodes.len()
}

fn written_survey<'t>(
    alloc: Global,
    hasher: RandomState,
    tree: &'t Tree,
    places: &Places,
) -> Result<Survey<'t>, AllocError>
    ensures { IfOk result (λ survey. survey ≡ nodes_in (Some places.now) tree.now.root) }
{
    let survey = Survey::of(alloc, hasher, tree)?;
    let count = written_count(&survey, places);
    if count == survey.len() {
        return Ok(survey);
    }
    Survey::of_first(alloc, hasher, tree, count)
}

fn survey_of<'t>(
    alloc: Global,
    hasher: RandomState,
    tree: &'t Tree,
    written: Option<&Places>,
) -> Result<Survey<'t>, AllocError>
    ensures { IfOk result (λ survey. survey ≡ nodes_in (option_copied written.entry) tree.now.root) }
{
    match written {
        None => Survey::of(alloc, hasher, tree),
        Some(places) => written_survey(alloc, hasher, tree, places),
    }
}

fn places_in<'a>(source: Option<Source<'a>>) -> Option<&'a Places>
    ensures { option_copied result ≡ places_in source.entry }
{
    match source {
        None => None,
        Some(source) => Some(source.places),
    }
}

/// The lines of what the checks find in a tree: of a source, in the nodes that its text has.
pub fn check_tree(
    alloc: Global,
    hasher: RandomState,
    tree: &Tree,
    selection: &Selection,
    asked: Asked<'_>,
) -> Result<Answer, AllocError>
    ensures { IfOk result (λ answer.
        Judges asked.entry.reference.now (places_in asked.entry.source) tree.now.root selection.now asked.entry.quiet answer.failed) }
{
    let written = places_in(asked.source);
    let survey = survey_of(alloc, hasher, tree, written)?;
    let subject = Subject {
        alloc,
        survey: &survey,
        written,
        reference: asked.reference,
    };
    let report = run_checks(subject, selection, least_of(asked.quiet))?;
    let mut writer = Writer::new(alloc);
    put_findings(
        alloc,
        &mut writer,
        &survey,
        selection,
        report.findings.as_slice(),
        asked,
    )?;
    let failed = report.failed;
    Ok(Answer {
        text: writer.text,
        failed,
    })
}

/// The same of the tree that a blob holds: places aren't told, nor references asked for.
pub fn check_blob(
    alloc: Global,
    hasher: RandomState,
    blob: &[u8],
    selection: &Selection,
    asked: Asked<'_>,
) -> Result<Answer, BlobError>
    ensures { IfOk result (λ answer. (tree : TreeData) × Holds blob.now tree
        × Judges asked.entry.reference.now (places_in asked.entry.source) tree.root selection.now asked.entry.quiet answer.failed) }
{
    let tree = read(alloc, blob)?;
    Ok(check_tree(alloc, hasher, &tree, selection, asked)?)
}
