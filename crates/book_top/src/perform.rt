//! The performing of commands. Each comes to an answer, and says its report.
ghost use Rattle.book_top.specs.CommandLine.{command_of};
ghost use Rattle.book_top.specs.Performed.{IsPerformed};

mod check;
pub mod say;
mod verify;

use crate::command::Command;
use crate::status::Status;
use check::check_book;
use fb_base::Desk;
use std::alloc::Global;
use verify::verify_file;

/// Does what the command asks for.
pub fn perform<D: Desk>(alloc: Global, command: Command<'_>, desk: &mut D) -> Status
    ensures { IsPerformed (command_of command.entry) (D.seen desk.old) (D.seen desk.new) result }
{
    match command {
        Command::Check(asked) => check_book(alloc, asked, desk),
        Command::Verify(deriv) => verify_file(alloc, deriv, desk),
    }
}
