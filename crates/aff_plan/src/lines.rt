//! The lines of a text, up to the first one that cannot be read by itself.
ghost use Rattle.std.specs.Prelude.{◌≡◌, [], ◌∷◌, ◌++◌, List, Some, None, IfOk, OnOk, MatchOption};
ghost use Rattle.aff_plan.specs.Reading.{AreRead, IsReading};
ghost use Rattle.aff_plan.specs.Text.{NumberedLine, kept_lines, numbered_lines};

use crate::cut::cut_at;
use crate::error::PlanError;
use crate::line::{Misread, is_skipped, read_extent};
use aff_model::Extent;
use std::alloc::{AllocError, Global};

/// The extents of some lines, and the number of each one's line.
#[derive(Drop)]
pub struct Lines {
    pub extents: Vec<Extent>,
    pub numbers: Vec<u64>,
}

impl Lines {
    pub fn new(alloc: Global) -> Lines
        ensures extents { result.extents.items ≡ [] }
        ensures numbers { result.numbers.items ≡ [] }
    {
        Lines {
            extents: Vec::new(alloc),
            numbers: Vec::new(alloc),
        }
    }

    /// Reads the lines of a plan's text, and says what is wrong with the one that cannot be read, if there is one.
    pub fn read(&mut self, text: &[u8]) -> Result<Option<PlanError>, AllocError>
        requires extents { self.old.extents.items ≡ [] }
        requires numbers { self.old.numbers.items ≡ [] }
        ensures { IfOk result (IsReading (numbered_lines text.now) self.new.numbers.items self.new.extents.items) }
    {
        let mut number = 0;
        let mut rest = Some(text);
        'lines: while let Some(lines) = rest {
            let (line, others) = cut_at(lines, b'\n');
            if line == b"session".as_slice() {
                return Ok(None);
            }
            number += 1;
            if let Some(error) = self.read_line(line, number)? {
                return Ok(Some(error));
            }
            rest = others;
        }
        Ok(None)
    }

    // Reads the line of a number, behind those that were read.
    fn read_line(&mut self, line: &[u8], number: u64) -> Result<Option<PlanError>, AllocError>
        ensures { IfOk result (λ stop. (lines after : List NumberedLine)
            → AreRead lines (kept_lines number (line.now ∷ []) ++ after) self.old.numbers.items self.old.extents.items
            → MatchOption stop (AreRead lines after self.new.numbers.items self.new.extents.items)
            (λ error. IsReading lines self.new.numbers.items self.new.extents.items (Some error))) }
    {
        if is_skipped(line) {
            return Ok(None);
        }
        match read_extent(line) {
            Ok(extent) => {
                self.push(extent, number)?;
                Ok(None)
            }
            Err(Misread::Shape) => Ok(Some(PlanError::Shape(number))),
            Err(Misread::Number) => Ok(Some(PlanError::Number(number))),
        }
    }

    fn push(&mut self, extent: Extent, number: u64) -> Result<(), AllocError>
        ensures extents { OnOk result (self.new.extents.items ≡ self.old.extents.items ++ extent ∷ []) }
        ensures numbers { OnOk result (self.new.numbers.items ≡ self.old.numbers.items ++ number ∷ []) }
    {
        self.extents.push(extent)?;
        self.numbers.push(number)?;
        Ok(())
    }
}
