use ax_values::NoMemory;
use thiserror::Error;

/// Why there is no sheet.
#[derive(Debug, Drop, Error)]
pub enum SheetFault {
    /// The text is not the JSON text of a sheet.
    #[error("the text is no sheet")]
    Refused,
    #[error("there is no memory")]
    Memory,
}

impl From<NoMemory> for SheetFault {
    ghost use Rattle.std.specs.Prelude.{◌≡◌};
    ghost use Rattle.ax_sheet_parts.specs.declared.fault.SheetFault.TheVariants.{Memory};

    ghost from_gives = { λ _ fault. fault ≡ Memory };

    fn from(_: NoMemory) -> SheetFault {
        SheetFault::Memory
    }
}
