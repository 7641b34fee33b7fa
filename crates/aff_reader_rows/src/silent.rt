//! A folder that tells nothing, with its receipts and its peeks.
use aff_outside::{Folder, FolderError, Peek, PeekFailed, Segment, Telling};

/// A receipt that tells nothing.
#[derive(Drop)]
pub struct SilentReceipt;

impl Telling for SilentReceipt {
    ghost use Rattle.std.specs.Prelude.{[], false};

    ghost receipt_tells = { false };

    ghost told = { λ _. [] };
}

/// A peek that gives a byte over and over, whatever was appended.
#[derive(Drop)]
pub struct SilentPeek {
    pub byte: u8,
}

impl Peek<SilentReceipt> for SilentPeek {
    ghost peek_faults = { λ _. 0 };

    fn fetch(&mut self, _receipt: &SilentReceipt, out: &mut [u8]) -> Result<(), PeekFailed> {
        out.fill(self.byte);
        Ok(())
    }
}

/// A folder that refuses everything.
#[derive(Drop)]
pub struct SilentFolder;

impl Folder for SilentFolder {
    ghost use Rattle.std.specs.Prelude.{false, refl};
    ghost use Rattle.std.specs.FinMap.{empty};

    type Receipt = SilentReceipt;

    type Peek = SilentPeek;

    ghost tells = { false };

    ghost held = { λ _. empty };

    ghost folder_faults = { λ _. 0 };

    fn list(&mut self) -> Result<Vec<Segment>, FolderError> {
        Err(FolderError::Memory)
    }

    fn append(&mut self, _name: &str, _bytes: &[u8]) -> Result<SilentReceipt, FolderError> {
        Err(FolderError::Memory)
    }

    fn read_at(&mut self, _name: &str, _at: u64, _out: &mut [u8]) -> Result<(), FolderError> {
        Err(FolderError::Memory)
    }

    fn peeks(&mut self, _count: usize) -> Result<Vec<SilentPeek>, FolderError> {
        Err(FolderError::Memory)
    }

    ghost receipts_tell = { refl };
}
