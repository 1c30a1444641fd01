//! The outside as the program sees it: files by their names, one file that is being written, and what is said.
ghost use Rattle.std.specs.Prelude.{◌≡◌, true};
ghost use Rattle.fb_base.specs.Desk.{Seen, Fetches, Starts, Appends, Says};

use crate::NoMemory;
use std::alloc::{AllocError, Global};

/// Why a call on a desk was refused.
#[derive(Clone, Copy, Debug, PartialEq, Eq)]
pub enum DeskFault {
    /// The outside failed, and the desk counted it.
    Failed,
    /// Memory ran out, and nothing was changed.
    Memory,
}

impl From<AllocError> for DeskFault {
    ghost use Rattle.std.specs.Prelude.{◌≡◌};
    ghost use Rattle.fb_base.specs.declared.desk.DeskFault.TheVariants.{Memory};

    ghost from_gives = { λ _ fault. fault ≡ Memory };

    fn from(_: AllocError) -> Self {
        DeskFault::Memory
    }
}

impl From<NoMemory> for DeskFault {
    ghost use Rattle.std.specs.Prelude.{◌≡◌};
    ghost use Rattle.fb_base.specs.declared.desk.DeskFault.TheVariants.{Memory};

    ghost from_gives = { λ _ fault. fault ≡ Memory };

    fn from(_: NoMemory) -> Self {
        DeskFault::Memory
    }
}

/// Files and what is said, with a count of the calls that failed.
///
/// A clause on the content of files, or on what was said, holds where the desk tells it. What a desk tells, and
/// whether it is sound, stays the same. A sound desk that tells its files fails only a `fetch` of a name that
/// isn't there.
pub trait Desk {
    ghost seen: { Self → Seen };

    /// The first `most` bytes of the named file, or the whole file if it is shorter. It changes no file.
    fn fetch(&mut self, alloc: Global, name: &str, most: usize) -> Result<Vec<u8>, DeskFault>
        ensures { Fetches (seen self.old) (seen self.new) name.now most (λ v. v.items) result };

    /// Makes the named file empty. It is the started file from now on, and no other is.
    fn start(&mut self, name: &str) -> Result<(), DeskFault>
        ensures { Starts (seen self.old) (seen self.new) name.now result };

    /// Writes at the end of the started file.
    fn append(&mut self, bytes: &[u8]) -> Result<(), DeskFault>
        requires { (seen self.old).started ≡ true }
        ensures { Appends (seen self.old) (seen self.new) bytes.now result };

    /// Says the bytes after what was said before.
    fn say(&mut self, bytes: &[u8]) -> Result<(), DeskFault>
        ensures { Says (seen self.old) (seen self.new) bytes.now result };
}
