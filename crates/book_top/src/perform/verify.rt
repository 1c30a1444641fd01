//! The command `verify`: the verification of a derivation file.
ghost use Rattle.std.specs.Prelude.{◌≡◌, ◌≤◌, None, IsTrue, length};
ghost use Rattle.fb_base.specs.Desk.{Rose};
ghost use Rattle.book_top.specs.Command as commands;
ghost use Rattle.book_top.specs.Verify.{Verifies, MayVerify, AnswersBytes, refusal_of};
ghost use Rattle.book_top.specs.Performed.{IsPerformed};

use super::say::say;
use crate::fetch::fetch;
use crate::report::Subject;
use crate::status::{LimitFault, Status, Summary};
use dr_check::check_file;
use dr_text::reader::RecordFault;
use fb_base::Desk;
use std::alloc::Global;

const DERIV_BYTES: usize = 536_870_912;

/// Verifies the derivation file of this name, and says the report. It begins no file.
pub fn verify_file<D: Desk>(alloc: Global, deriv: &str, desk: &mut D) -> Status
    ensures { IsPerformed (commands.Verify deriv.now) (D.seen desk.old) (D.seen desk.new) result }
{
    let status = verify(alloc, deriv, desk);
    say(alloc, desk, Subject::Derivation, &[], status)
}

// Reads the derivation file of this name, and judges its records one after another.
fn verify<D: Desk>(alloc: Global, deriv: &str, desk: &mut D) -> Status
    ensures verifies { IsTrue (D.seen desk.old).tells_files → Verifies (D.seen desk.old).files (D.seen desk.new).files deriv.now result }
    ensures may { MayVerify result }
    ensures same { D.seen desk.new ≡ record (D.seen desk.old) { faults = (D.seen desk.new).faults } }
    ensures never_falls { (D.seen desk.old).faults ≤ (D.seen desk.new).faults }
    ensures desk { result ≡ Status.Desk → Rose (D.seen desk.old).faults (D.seen desk.new).faults }
    ensures absent { result ≡ Status.Desk → IsTrue (D.seen desk.old).tells_files → IsTrue (D.seen desk.old).sound
        → (D.seen desk.old).files deriv.now ≡ None }
{
    match fetch(alloc, desk, deriv, DERIV_BYTES, LimitFault::DerivBytes) {
        Ok(bytes) => check_bytes(alloc, &bytes),
        Err(status) => status,
    }
}

// The answer for the bytes of a derivation file.
fn check_bytes(alloc: Global, bytes: &[u8]) -> Status
    requires { length bytes.now ≤ 536870912 }
    ensures { AnswersBytes bytes.now result }
{
    match check_file(alloc, bytes) {
        Ok(checked) => Status::Done(Summary {
            items: 0,
            entries: checked.env.len() as u64,
            steps: 0,
        }),
        Err(fault) => refused(fault),
    }
}

// The answer for a derivation file that is refused.
fn refused(fault: RecordFault) -> Status
    ensures { result ≡ refusal_of fault }
{
    match fault {
        RecordFault::Memory => Status::Memory,
        fault => Status::BadRecord(fault),
    }
}
