//! The top call: what the words ask for, and one report.
ghost use Rattle.std.specs.Prelude.{◌≡◌, IsTrue};
ghost use Rattle.fb_base.specs.Desk.{Rose};
ghost use Rattle.book_top.specs.Words.{texts};
ghost use Rattle.book_top.specs.Command as commands;
ghost use Rattle.book_top.specs.Desk.{OnlySays};
ghost use Rattle.book_top.specs.Top.{MayAnswer, ChangesOnly, AnswersNoCommand, Outcome, IsAbsent};
ghost use Rattle.book_top.specs.Said.{SaysOf};
ghost use Rattle.book_top.specs.Complete.{IsUndisturbed, CanBeDone, IsDoneOrMemory};
ghost use Rattle.book_top.specs.Refused.{IsRightlyRefused};

use crate::perform::perform;
use crate::perform::say::say;
use crate::report::Subject;
use crate::status::{RuleFault, Status};
use crate::words::read_words;
use fb_base::{Desk, NoMemory};
use std::alloc::Global;

/// Does what the words of the command line ask for, and says one report.
///
/// `check BOOK OUT` reads the book, and only when it is parsed begins the file OUT, so that OUT may be the book's own
/// name. The items are judged in order, each under the flags that its bars leave open and within a budget of steps; the
/// records of each are written before the next is judged. `verify DERIV` reads the derivation file DERIV, and judges each
/// of its records before the next is read; it begins no file.
///
/// Where a rule is answered, the item that it names is the first that isn't accepted, and has no derivation after the
/// items before it.
pub fn run<D: Desk>(alloc: Global, words: &[&str], desk: &mut D) -> Status
    ensures outcome { IsTrue (D.seen desk.old).tells_files
        → Outcome (D.seen desk.old).files (D.seen desk.new).files (texts words.now) result }
    ensures usage { result ≡ Status.Usage → commands.IsNoCommand (texts words.now) }
    ensures no_command { commands.IsNoCommand (texts words.now) → AnswersNoCommand result }
    ensures may { (c : commands.Command) → commands.Asks (texts words.now) c → MayAnswer c result }
    ensures only_says { commands.IsNoCommand (texts words.now) → OnlySays (D.seen desk.old) (D.seen desk.new) }
    ensures changes { (c : commands.Command) → commands.Asks (texts words.now) c → ChangesOnly c (D.seen desk.old) (D.seen desk.new) }
    ensures said { IsTrue (D.seen desk.old).tells_said → SaysOf (D.seen desk.old) (D.seen desk.new) (texts words.now) result }
    ensures desk { result ≡ Status.Desk → Rose (D.seen desk.old).faults (D.seen desk.new).faults }
    ensures absent { IsTrue (D.seen desk.old).tells_files → IsTrue (D.seen desk.old).sound → result ≡ Status.Desk
        → IsAbsent (D.seen desk.old).files (texts words.now) }
    ensures complete { IsTrue (D.seen desk.old).tells_files → IsUndisturbed (D.seen desk.old) (D.seen desk.new)
        → CanBeDone (D.seen desk.old).files (texts words.now) → IsDoneOrMemory result }
    ensures underivable { IsTrue (D.seen desk.old).tells_files → (fault : RuleFault) → result ≡ Status.Rule fault
        → IsRightlyRefused (D.seen desk.old).files (texts words.now) fault }
{
    match read_words(alloc, words) {
        Ok(Some(command)) => perform(alloc, command, desk),
        Ok(None) => say(alloc, desk, Subject::Book, &[], Status::Usage),
        Err(NoMemory) => Status::Memory,
    }
}
