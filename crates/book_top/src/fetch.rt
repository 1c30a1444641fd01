//! A whole file of the desk, within a limit.
ghost use Rattle.std.specs.Prelude.{◌≡◌, ◌≤◌, None, IfOk, IfErr, IsTrue, IsErrOf, length};
ghost use Rattle.fb_base.specs.Desk.{Rose};
ghost use Rattle.book_top.specs.Fetched.{IsFetchedWithin, StopsFetch};

use crate::status::{LimitFault, Status};
use fb_base::{Desk, DeskFault};
use std::alloc::Global;

/// The whole file of this name, where it has at most so many bytes. Else the answer: for a longer file, that this limit is
/// passed.
pub fn fetch<D: Desk>(
    alloc: Global,
    desk: &mut D,
    name: &str,
    most: usize,
    passed: LimitFault,
) -> Result<Vec<u8>, Status>
    requires { most ≤ 536870912 }
    ensures bytes { IfOk result (λ content. IsTrue (D.seen desk.old).tells_files
        → IsFetchedWithin most (D.seen desk.old).files name.now content.items) }
    ensures short { IfOk result (λ content. length content.items ≤ most) }
    ensures same { D.seen desk.new ≡ record (D.seen desk.old) { faults = (D.seen desk.new).faults } }
    ensures never_falls { (D.seen desk.old).faults ≤ (D.seen desk.new).faults }
    ensures desk { IsErrOf result Status.Desk → Rose (D.seen desk.old).faults (D.seen desk.new).faults }
    ensures stopped { IfErr result (StopsFetch most passed (D.seen desk.old) name.now) }
    ensures absent { IsErrOf result Status.Desk → IsTrue (D.seen desk.old).tells_files → IsTrue (D.seen desk.old).sound
        → (D.seen desk.old).files name.now ≡ None }
{
    match desk.fetch(alloc, name, most + 1) {
        Ok(content) => {
            if content.len() > most {
                return Err(Status::Limit(passed));
            }
            Ok(content)
        }
        Err(DeskFault::Failed) => Err(Status::Desk),
        Err(DeskFault::Memory) => Err(Status::Memory),
    }
}
