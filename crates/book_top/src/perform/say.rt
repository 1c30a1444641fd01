//! What is said of an answer reaches the desk.
ghost use Rattle.std.specs.Prelude.{◌≡◌, ◌⊎◌, ◌≤◌, IsTrue};
ghost use Rattle.fb_base.specs.Desk.{Rose};
ghost use Rattle.book_top.specs.Desk.{OnlySays};
ghost use Rattle.book_top.specs.Top.{IsSaid, IsAnswerOf};

use crate::report::{Subject, report};
use crate::status::Status;
use fb_base::{Desk, DeskFault};
use std::alloc::Global;

/// Says the report of an answer, on the book with this text or on a derivation file; where that fails, the answer is another.
pub fn say<D: Desk>(
    alloc: Global,
    desk: &mut D,
    subject: Subject,
    text: &[u8],
    status: Status,
) -> Status
    ensures same { IsAnswerOf status result }
    ensures only { OnlySays (D.seen desk.old) (D.seen desk.new) }
    ensures said { IsTrue (D.seen desk.old).tells_said
        → IsSaid subject text.now status (D.seen desk.old).said (D.seen desk.new).said result }
    ensures never_falls { (D.seen desk.old).faults ≤ (D.seen desk.new).faults }
    ensures desk { result ≡ Status.Desk → (status ≡ Status.Desk) ⊎ Rose (D.seen desk.old).faults (D.seen desk.new).faults }
    ensures sound { result ≡ Status.Desk → IsTrue (D.seen desk.old).tells_files → IsTrue (D.seen desk.old).sound → status ≡ Status.Desk }
{
    if let Status::Desk = status {
        return status;
    }
    let Ok(words) = report(alloc, subject, text, &status) else {
        return Status::Memory;
    };
    match desk.say(&words) {
        Ok(()) => status,
        Err(DeskFault::Failed) => Status::Desk,
        Err(DeskFault::Memory) => Status::Memory,
    }
}
