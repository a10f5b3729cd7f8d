ghost use Rattle.std.specs.Prelude.{◌≡◌};

use dt_tree::Path;
use std::marker::Model;

/// A line `fail PATH` of a driver file: the driver of the device at the path fails.
#[derive(Debug, Drop)]
pub struct FailLine {
    path: Path,
    line: usize,
}

impl Model for FailLine {
    ghost use Rattle.bus_drivers.specs.Driver.{FailData};

    ghost Value = { FailData };

    ghost view = { λ f. record { path = f.path; line = f.line } };
}

impl FailLine {
    pub(crate) fn new(path: Path, line: usize) -> Self
        ensures { result ≡ record { path = path; line = line } }
    {
        Self { path, line }
    }

    /// The device's path.
    pub fn path(&self) -> &Path
        ensures { result.now ≡ self.now.path }
    {
        &self.path
    }

    /// The line's number, from 1.
    pub fn line(&self) -> usize
        ensures { result ≡ self.now.line }
    {
        self.line
    }
}
