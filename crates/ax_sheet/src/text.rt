ghost use Rattle.std.specs.Prelude.{◌≡◌, IfOk, Some};
ghost use Rattle.ax_sheet_rules.specs.Shape.{sheet_in};
ghost use Rattle.ax_sheet_writing.specs.Text.{sheet_text};

use crate::Sheet;
use ax_sheet_writing::sheet_data;
use ax_values::{Line, NoMemory};
use std::alloc::Global;

impl Sheet {
    /// The compact JSON text: members in byte order, without those that may be missing and are empty or false.
    /// It is read again as this sheet.
    pub fn text(&self, alloc: Global) -> Result<Line, NoMemory>
        ensures value { IfOk result (λ text. text ≡ sheet_text self.now) }
        ensures again { IfOk result (λ text. sheet_in text ≡ Some self.now) }
    {
        let value = sheet_data(alloc, &self.parts)?;
        Ok(Line::of(value.to_string(alloc)?.into_bytes()))
    }
}
