//! A record judged over the records before it.
ghost use Rattle.std.specs.Prelude.{◌<◌, ◌+◌, ◌^◌, length};
ghost use Rattle.ld_terms.specs.Record.{HasSpelling};
ghost use Rattle.dr_check.specs.Spelled.{record_of};
ghost use Rattle.dr_check.specs.Judging.{IsJudgedAs};

use crate::checker::Checker;
use crate::make::{Unmet, make};
use crate::spelled::Spelled;
use crate::there::is_there;
use dr_text::reader::RecordFault;
use std::alloc::Global;

/// Judges the record of this number, and adds what it makes.
///
/// Where a number that it names is that of nothing earlier the answer is `BadRef`, and else, where it doesn't meet its
/// condition, `BadStep`.
pub(crate) fn judge(
    alloc: Global,
    checker: &mut Checker,
    spelled: &Spelled,
    number: u64,
) -> Result<(), RecordFault>
    requires spelling { HasSpelling (record_of spelled.now) }
    requires room { length checker.old.state.known.env + 1 < 2 ^ 32 }
    ensures { IsJudgedAs checker.old.state checker.new.state (record_of spelled.now) number result }
{
    if !is_there(checker, spelled) {
        return Err(RecordFault::BadRef(number));
    }
    match make(alloc, checker, spelled) {
        Ok(()) => Ok(()),
        Err(Unmet::Condition) => Err(RecordFault::BadStep(number)),
        Err(Unmet::Memory) => Err(RecordFault::Memory),
    }
}
