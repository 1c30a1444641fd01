//! Derivation files checked.
ghost use Rattle.std.specs.Prelude.{◌≡◌, ◌<◌, ◌≤◌, ◌+◌, ◌^◌, length};
ghost use Rattle.ld_terms.specs.Record.{Record};
ghost use Rattle.dr_text.specs.Read.{parts_of};
ghost use Rattle.dr_check.specs.Checks.{ChecksFile};
ghost use Rattle.dr_check.specs.Judging.{IsJudgedAs, AnswersNext, IsReadRecord};

use crate::checker::Checker;
use crate::decode::decode;
use crate::judge::judge;
use dr_text::reader::{RecordFault, Records};
use dr_text::rec::Rec;
use fb_base::NoMemory;
use ld_env::Env;
use ld_terms::Bank;
use std::alloc::Global;

/// The environment that a file derives, and the bank that its terms are numbers of.
#[derive(Debug, Drop)]
pub struct Checked {
    pub bank: Bank,
    pub env: Env,
}

/// Whether the bytes are a derivation file, and of which environment. The file has at most 536,870,912 bytes.
///
/// Each record is judged by the records before it alone, before the next one is read, and the answer is the first fault.
pub fn check_file(alloc: Global, bytes: &[u8]) -> Result<Checked, RecordFault>
    requires { length bytes.now ≤ 536870912 }
    ensures { ChecksFile bytes.now result }
{
    let mut records = match Records::new(bytes) {
        Ok(records) => records,
        Err(fault) => return Err(fault),
    };
    let Ok(mut checker) = Checker::new(alloc) else {
        return Err(RecordFault::Memory);
    };
    let mut number = 0;
    loop {
        match check_next(alloc, &mut records, &mut checker, number) {
            Ok(true) => number += 1,
            Ok(false) => break,
            Err(fault) => return Err(fault),
        }
    }
    let (bank, env) = checker.into_parts();
    Ok(Checked { bank, env })
}

// Reads the next record, which has this number, and judges it. Whether there was one.
fn check_next(
    alloc: Global,
    records: &mut Records,
    checker: &mut Checker,
    number: u64,
) -> Result<bool, RecordFault>
    requires { length checker.old.state.known.env + 1 < 2 ^ 32 }
    ensures { AnswersNext records.old records.new checker.old.state checker.new.state number result }
{
    match records.next() {
        Ok(Some(rec)) => match check_record(alloc, checker, &rec, number) {
            Ok(()) => Ok(true),
            Err(fault) => Err(fault),
        },
        Ok(None) => Ok(false),
        Err(fault) => Err(fault),
    }
}

// Judges a record that was read.
fn check_record(
    alloc: Global,
    checker: &mut Checker,
    rec: &Rec,
    number: u64,
) -> Result<(), RecordFault>
    requires read { IsReadRecord rec.now }
    requires room { length checker.old.state.known.env + 1 < 2 ^ 32 }
    ensures { (r : Record) → rec.now ≡ parts_of r → IsJudgedAs checker.old.state checker.new.state r number result }
{
    match decode(alloc, rec) {
        Ok(spelled) => judge(alloc, checker, &spelled, number),
        Err(NoMemory) => Err(RecordFault::Memory),
    }
}
