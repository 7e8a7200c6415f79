// Why there is no answer.
ghost use Rattle.std.specs.Prelude.{◌≡◌, Some};
ghost use Rattle.sheets.specs.Texts.{error_text};
ghost use Rattle.sheets.specs.declared.error.SheetError.TheVariants.{NoMemory};

use request::Kind;
use std::alloc::AllocError;
use std::error::Error;
use std::fmt;

#[derive(Debug, Drop)]
pub enum SheetError {
    NoMemory,
    // Drawings of this kind are not built yet.
    NotBuilt(Kind),
}

// Written by hand, since what the kit's `thiserror` derives has no contract.
impl fmt::Display for SheetError {
    ghost output = { λ e. Some (error_text e) };

    fn fmt<W: fmt::Write>(&self, f: &mut fmt::Formatter<W>) -> fmt::Result {
        match self {
            SheetError::NoMemory => f.write_str("out of memory"),
            SheetError::NotBuilt(kind) => write!(
                f,
                "drawings of the kind {kind} are not built yet"
            ),
        }
    }
}

impl Error for SheetError {}

impl From<AllocError> for SheetError {
    ghost from_gives = { λ _ r. r ≡ NoMemory };

    fn from(_e: AllocError) -> Self {
        Self::NoMemory
    }
}
