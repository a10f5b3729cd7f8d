//! What is wrong in the boards of a text that changed.

use crate::address::{normal, uri_of};
use crate::features::diagnostics::published;
use crate::library::{Library, Search};
use crate::ports::{Board, Examiner, Files, Finding};
use crate::server::state::{Judged, Server, folders_of};
use std::alloc::{AllocError, Global};

/// Files as they are open, else as they lie on disk.
struct Overlaid<'l, F> {
    library: &'l Library,
    files: &'l mut F,
}

impl<F> Drop for Overlaid<'_, F> {
    fn drop(self) {
        let Overlaid {
            library: _,
            files: _,
        } = self;
    }
}

impl<F: Files> Files for Overlaid<'_, F> {
    fn read(&mut self, alloc: Global, path: &[u8]) -> Result<Option<Vec<u8>>, AllocError> {
        let name = normal(alloc, path)?;
        match self.library.open_at(name.as_slice()) {
            Some(source) => Ok(Some(Vec::from_slice(alloc, source.text.as_slice())?)),
            None => self.files.read(alloc, path),
        }
    }
}

/// Adds a path, but for one that is there.
fn add_path(alloc: Global, paths: &mut Vec<Vec<u8>>, path: &[u8]) -> Result<(), AllocError> {
    if !paths
        .as_slice()
        .iter()
        .any(|other| other.as_slice() == path)
    {
        paths.push(Vec::from_slice(alloc, path)?)?;
    }
    Ok(())
}

fn add_paths(
    alloc: Global,
    paths: &mut Vec<Vec<u8>>,
    findings: &[Finding],
) -> Result<(), AllocError> {
    for finding in findings {
        add_path(alloc, paths, finding.path.as_slice())?;
    }
    Ok(())
}

/// The boards that a text belongs to: those that take it in and are open, else itself.
fn boards_of<F: Files>(
    library: &mut Library,
    search: &mut Search<'_, F>,
    number: usize,
) -> Result<Vec<usize>, AllocError> {
    let mut boards = search.takers(library, number)?;
    boards.retain(|taker| is_board(library, *taker));
    if boards.is_empty() || is_board(library, number) {
        boards.push(number)?;
    }
    Ok(boards)
}

fn is_board(library: &Library, number: usize) -> bool {
    library
        .get(number)
        .is_some_and(|source| source.outline.is_board)
}

/// What an examiner finds in a text, by normal paths.
fn findings_of<F: Files, X: Examiner>(
    alloc: Global,
    examiner: &mut X,
    library: &Library,
    files: &mut F,
    folders: &[&str],
    number: usize,
) -> Result<Vec<Finding>, AllocError> {
    let Some(source) = library.get(number) else {
        return Ok(Vec::new(alloc));
    };
    let board = Board {
        path: source.path.as_slice(),
        text: source.text.as_slice(),
        folders,
        is_whole: source.outline.is_board,
    };
    let mut overlaid = Overlaid { library, files };
    let mut findings = examiner.examine(alloc, &mut overlaid, board)?;
    for finding in findings.iter_mut() {
        let path = normal(alloc, finding.path.as_slice())?;
        finding.path = path;
    }
    Ok(findings)
}

impl<X: Examiner> Server<'_, X> {
    /// Judges the boards of a text that changed, and tells of each file what is found in it now.
    pub(crate) fn judge<F: Files>(
        &mut self,
        path: &[u8],
        files: &mut F,
    ) -> Result<Vec<Vec<u8>>, AllocError> {
        let mut paths = Vec::new(self.alloc);
        add_path(self.alloc, &mut paths, path)?;
        self.drop_board(path, &mut paths)?;
        if let Some(number) = self.library.number_of(path) {
            self.judge_boards(number, &mut paths, files)?;
        }
        self.publish(paths.as_slice())
    }

    /// Judges the boards of a text, and adds the files in which something was or is found.
    fn judge_boards<F: Files>(
        &mut self,
        number: usize,
        paths: &mut Vec<Vec<u8>>,
        files: &mut F,
    ) -> Result<(), AllocError> {
        let folders = folders_of(self.alloc, self.folders.as_slice())?;
        let mut search = Search {
            alloc: self.alloc,
            files: &mut *files,
            folders: folders.as_slice(),
        };
        let boards = boards_of(&mut self.library, &mut search, number)?;
        drop(search);
        for board in &boards {
            let findings = findings_of(
                self.alloc,
                &mut self.examiner,
                &self.library,
                files,
                folders.as_slice(),
                *board,
            )?;
            keep(
                self.alloc,
                &self.library,
                &mut self.judged,
                *board,
                findings,
                paths,
            )?;
        }
        Ok(())
    }

    /// Forgets what was found in a board, and adds the files in which that was.
    fn drop_board(&mut self, path: &[u8], paths: &mut Vec<Vec<u8>>) -> Result<(), AllocError> {
        for judged in &self.judged {
            if judged.path.as_slice() == path {
                add_paths(self.alloc, paths, judged.findings.as_slice())?;
            }
        }
        self.judged.retain(|judged| judged.path.as_slice() != path);
        Ok(())
    }

    /// Forgets what was found in a board that is closed, and tells that.
    pub(crate) fn forget_board(&mut self, path: &[u8]) -> Result<Vec<Vec<u8>>, AllocError> {
        let mut paths = Vec::new(self.alloc);
        add_path(self.alloc, &mut paths, path)?;
        self.drop_board(path, &mut paths)?;
        self.publish(paths.as_slice())
    }

    /// The notifications of what is found in files.
    fn publish(&self, paths: &[Vec<u8>]) -> Result<Vec<Vec<u8>>, AllocError> {
        let mut bodies = Vec::new(self.alloc);
        for path in paths {
            bodies.push(self.published(path.as_slice())?)?;
        }
        Ok(bodies)
    }

    fn published(&self, path: &[u8]) -> Result<Vec<u8>, AllocError> {
        let uri = match self.library.number_of(path) {
            Some(number) => self.library.uri(number)?,
            None => uri_of(self.alloc, path)?,
        };
        published(
            self.alloc,
            &self.library,
            self.judged.as_slice(),
            uri.as_str(),
            path,
        )
    }
}

/// Keeps what is found in a board, in the place of what was, and adds the files in which either is.
fn keep(
    alloc: Global,
    library: &Library,
    judged: &mut Vec<Judged>,
    board: usize,
    findings: Vec<Finding>,
    paths: &mut Vec<Vec<u8>>,
) -> Result<(), AllocError> {
    let Some(source) = library.get(board) else {
        return Ok(());
    };
    let path = Vec::from_slice(alloc, source.path.as_slice())?;
    add_paths(alloc, paths, findings.as_slice())?;
    for old in judged.iter_mut() {
        if old.path.as_slice() == path.as_slice() {
            add_paths(alloc, paths, old.findings.as_slice())?;
            old.findings = findings;
            return Ok(());
        }
    }
    judged.push(Judged { path, findings })?;
    Ok(())
}
