//! The program: it takes its words and its memory from the runtime, and ends with the status of the run.
#![tactic(auto)]

#[cfg(test)]
mod command_runs;
#[cfg(test)]
mod conversion_runs;
#[cfg(test)]
mod desk;
#[cfg(test)]
mod first_runs;
#[cfg(test)]
mod name_runs;
#[cfg(test)]
mod parameter_runs;
#[cfg(test)]
mod path_runs;
#[cfg(test)]
mod refusal_runs;
#[cfg(test)]
mod rule_runs;
#[cfg(test)]
mod verify_runs;

use book_top::run;
use fb_base::HostDesk;
use std::alloc::{AllocError, Global};
use std::env;
use std::io::ErrorKind;
use std::process::ExitCode;

// The status where the words can't be had.
const NO_WORDS: u8 = 5;

// The status where no memory is found for the words.
const NO_MEMORY: u8 = 7;

fn main(rt: HostRuntime) -> ExitCode {
    let alloc = rt.alloc();
    let arguments = match env::args(&rt) {
        Ok(arguments) => arguments,
        Err(error) if error.kind() == ErrorKind::OutOfMemory => return ExitCode::from(NO_MEMORY),
        Err(_) => return ExitCode::from(NO_WORDS),
    };
    let mut words = Vec::new(alloc);
    // The first is the program's own name.
    for word in arguments.skip(1) {
        if words.push(word).is_err() {
            return ExitCode::from(NO_MEMORY);
        }
    }
    ExitCode::from(run_words(alloc, rt, &words).unwrap_or(NO_MEMORY))
}

// The status of the run on these words.
fn run_words(alloc: Global, rt: HostRuntime, words: &[String]) -> Result<u8, AllocError> {
    let mut texts = Vec::new(alloc);
    for word in words {
        texts.push(word.as_str())?;
    }
    let mut desk = HostDesk::new(rt);
    Ok(run(alloc, &texts, &mut desk).code())
}
