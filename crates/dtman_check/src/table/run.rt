//! Which checks are made, and what they tell.
ghost use Rattle.std.specs.Prelude.{◌≡◌, ◌&&◌, IfOk, OnOk, map};
ghost use Rattle.dtman_check.specs.Table.Checks.{checks};
ghost use Rattle.dtman_check.specs.Table.CheckView.{check_data};
ghost use Rattle.dtman_check.specs.Table.Run.{FindsOf, TellsOf};

use crate::table::check::{Check, Finds};
use crate::table::finding::Finding;
use crate::table::finding_all::find;
use crate::table::selection::{Least, Level, Selection};
use crate::table::subject::Subject;
use crate::table::units::find_units;
use crate::table::unknown::find_unknown;
use std::alloc::{AllocError, Global};
use std::marker::Model;

/// What the checks told.
#[derive(Drop)]
pub struct Report<'t> {
    /// In the order of the table, of each in the order of the tree.
    pub findings: Vec<Finding<'t>>,
    /// Whether one is an error.
    pub failed: bool,
}

#[derive(Drop)]
struct Run<'t> {
    // of each check so far, whether it told something
    told: Vec<bool>,
    findings: Vec<Finding<'t>>,
    failed: bool,
}

impl<'t> Model for Run<'t> {
    ghost use Rattle.dtman_check.specs.Table.Run.{RunData};

    ghost Value = { RunData };

    ghost view = { λ run. record { told = run.told.items; findings = run.findings.items; failed = run.failed } };
}

// What a check finds.
fn look<'t>(
    subject: Subject<'_, 't>,
    check: usize,
    finds: Finds,
) -> Result<Vec<Finding<'t>>, AllocError>
    ensures { IfOk result (λ more. FindsOf subject.entry check finds more.items) }
{
    match finds {
        Finds::Units(counted) => find_units(subject.alloc, check, counted, subject.survey),
        Finds::Unknown => { find_unknown(subject.alloc, check, subject.survey, subject.reference) }
        finds => {
            let mut more = Vec::new(subject.alloc);
            find(&mut more, check, finds, subject)?;
            Ok(more)
        }
    }
}

impl<'t> Run<'t> {
    ghost use Rattle.std.specs.Prelude.{[], false, not};
    ghost use Rattle.std.specs.Bool.{MatchBool};
    ghost use Rattle.dtman_check.specs.Table.Selected.{level_at, is_due};
    ghost use Rattle.dtman_check.specs.Table.Run.{has_told, missing, after, MakesOf, MakesNextOf, MakesFromOf};

    fn has_told(&self, check: usize) -> bool
        ensures { result ≡ has_told self.now.told check }
    {
        match self.told.get(check) {
            Some(told) => *told,
            None => false,
        }
    }

    // Which prerequisites of a check told something.
    fn missing(
        &self,
        alloc: Global,
        check: usize,
        needed: &[usize],
    ) -> Result<Vec<Finding<'t>>, AllocError>
        ensures { IfOk result (λ gone. gone.items ≡ missing self.now.told check needed.now) }
    {
        let mut gone = Vec::new(alloc);
        for prerequisite in needed {
            if self.has_told(*prerequisite) {
                gone.push(Finding::of_prerequisite(check, *prerequisite))?;
            }
        }
        Ok(gone)
    }

    // What a check tells.
    fn made(
        &self,
        subject: Subject<'_, 't>,
        check: usize,
        row: &Check,
    ) -> Result<Vec<Finding<'t>>, AllocError>
        ensures { IfOk result (λ more. MakesOf subject.entry self.now.told check row.now more.items) }
    {
        let gone = self.missing(subject.alloc, check, row.prerequisites)?;
        if !gone.is_empty() {
            return Ok(gone);
        }
        look(subject, check, row.finds)
    }

    // What it tells where it is due: behind an error nothing.
    fn made_if_due(
        &self,
        subject: Subject<'_, 't>,
        is_due: bool,
        check: usize,
        row: &Check,
    ) -> Result<Vec<Finding<'t>>, AllocError>
        ensures { IfOk result (λ more. MatchBool (is_due && not self.now.failed)
            (MakesOf subject.entry self.now.told check row.now more.items) (more.items ≡ [])) }
    {
        if self.failed || !is_due {
            return Ok(Vec::new(subject.alloc));
        }
        self.made(subject, check, row)
    }

    // The next check told this.
    fn go_on(
        &mut self,
        least: Least,
        level: Level,
        more: Vec<Finding<'t>>,
    ) -> Result<(), AllocError>
        ensures { OnOk result (self.new ≡ after least level more.entry.items self.old) }
    {
        let mut more = more;
        let told = !more.is_empty();
        if level.is_asked(least) {
            self.findings.append(&mut more)?;
        }
        self.told.push(told)?;
        self.failed = self.failed || (level.fails && told);
        Ok(())
    }

    fn make_next(
        &mut self,
        subject: Subject<'_, 't>,
        selection: &Selection,
        least: Least,
        check: usize,
        row: &Check,
    ) -> Result<(), AllocError>
        ensures { OnOk result
            (MakesNextOf subject.entry selection.now least check row.now self.old self.new) }
    {
        let is_due = selection.is_due(least, check);
        let more = self.made_if_due(subject, is_due, check, row)?;
        self.go_on(least, selection.level(check), more)
    }

    fn make_all(
        &mut self,
        subject: Subject<'_, 't>,
        selection: &Selection,
        least: Least,
        rows: &[Check],
    ) -> Result<(), AllocError>
        ensures { OnOk result
            (MakesFromOf subject.entry selection.now least 0 rows.now self.old self.new) }
    {
        for (check, row) in rows.iter().enumerate() {
            self.make_next(subject, selection, least, check, row)?;
        }
        Ok(())
    }
}

/// Makes the checks that are asked for and those that they stand on, in the order of the table. One that stands on a check that told
/// something says so in place of being made; behind an error no other is made. What isn't asked for isn't told.
pub fn run_checks<'t>(
    subject: Subject<'_, 't>,
    selection: &Selection,
    least: Least,
) -> Result<Report<'t>, AllocError>
    ensures told { IfOk result (λ report.
        TellsOf subject.entry selection.now least report.findings.items report.failed) }
    // Whatever is selected, the table is dtc's.
    ensures table { map check_data selection.now.rows ≡ checks }
{
    let rows = selection.rows();
    let mut run = Run {
        told: Vec::with_capacity(subject.alloc, rows.len())?,
        findings: Vec::new(subject.alloc),
        failed: false,
    };
    run.make_all(subject, selection, least, rows)?;
    let Run {
        told: _,
        findings,
        failed,
    } = run;
    Ok(Report { findings, failed })
}
