//! Which probe runs while something happens.

use std::alloc::{AllocError, Global};

/// The probes that are told to begin and not to end, by the numbers of the names that they are of.
#[derive(Drop)]
pub struct Binders {
    /// In the order in which they began; some may have ended.
    begun: Vec<usize>,
    is_open: Vec<bool>,
}

impl Binders {
    /// None.
    pub fn new(alloc: Global) -> Self {
        Self {
            begun: Vec::new(alloc),
            is_open: Vec::new(alloc),
        }
    }

    fn set(&mut self, number: usize, value: bool) {
        if let Some(is_open) = self.is_open.get_mut(number) {
            *is_open = value;
        }
    }

    fn is_open(&self, number: usize) -> bool {
        matches!(self.is_open.get(number), Some(true))
    }

    /// Makes room for the numbers below this one.
    pub fn grow(&mut self, count: usize) -> Result<(), AllocError> {
        for _ in self.is_open.len()..count {
            self.is_open.push(false)?;
        }
        Ok(())
    }

    /// A probe of the name with this number begins.
    pub fn begin(&mut self, number: usize) -> Result<(), AllocError> {
        self.set(number, true);
        self.begun.push(number)?;
        Ok(())
    }

    /// It ends.
    pub fn end(&mut self, number: usize) {
        self.set(number, false);
        self.forget_ended();
    }

    // Leaves the last that is open last.
    fn forget_ended(&mut self) {
        for _ in 0..self.begun.len() {
            match self.begun.last() {
                Some(number) if !self.is_open(*number) => {
                    let _ = self.begun.pop();
                }
                _ => return,
            }
        }
    }

    /// The probe that began last and hasn't ended, by its name's number.
    pub fn innermost(&self) -> Option<usize> {
        self.begun.last().copied()
    }
}
