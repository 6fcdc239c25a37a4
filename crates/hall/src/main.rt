//! The program: `hall check [FILE]`.
#![tactic(auto)]

mod command;
mod trouble;

use amounts::Places;
use command::{Command, command_of};
use std::io::Read;
use std::process::ExitCode;
use std::{env, fs};
use trouble::Trouble;
use verdicts::{answer_line, check_text};

const HELP: &str = "hall: checks assembly runs against the places of a hall

usage: hall check [FILE]   check the run in FILE, or on standard input
       hall --help         this text
       hall --version      the version, and what it is proved with

check prints one line and ends with status 0 or 1:
  checked JOBS jobs: peak PEAK fits floor FLOOR
  refused LAYER NUMBER PLACE COLUMN
docs/REFUSALS.md lists the numbers, docs/TEXT.md the form of a run.";

const VERSION: &str = "hall 0.1.0
proved with rattle-kit-13f logic dac8208d650f15bf";

/// The bytes of the file, or of standard input where no file is named.
fn bytes_of(rt: &HostRuntime, file: Option<String>) -> Result<Vec<u8>, Trouble> {
    match file {
        Some(path) => {
            fs::read(rt, path.as_str()).map_err(|why| Trouble::Unreadable { path, why })
        }
        None => {
            let mut bytes = Vec::new(rt.alloc());
            rt.stdin().read_to_end(&mut bytes)?;
            Ok(bytes)
        }
    }
}

/// Prints the answer to a run; a refusal is an answer too, and told by the status beside.
fn check(rt: &HostRuntime, file: Option<String>) -> Result<ExitCode, Trouble> {
    let heap = rt.alloc();
    let bytes = bytes_of(rt, file)?;
    let answer = check_text::<Places>(heap, &bytes)?;
    print!(rt; "{}", answer_line(heap, &answer)?)?;
    Ok(match answer {
        Ok(_) => ExitCode::SUCCESS,
        Err(_) => ExitCode::FAILURE,
    })
}

/// Carries out what the words ask for.
fn run(rt: &HostRuntime) -> Result<ExitCode, Trouble> {
    let mut words = env::args(rt)?.skip(1);
    let first = words.next().ok_or(Trouble::NoCommand)?;
    let file = words.next();
    if words.next().is_some() {
        return Err(Trouble::TooManyWords);
    }
    match command_of(first.as_str()) {
        Some(Command::Check) => return check(rt, file),
        Some(Command::Help) => println!(rt; "{HELP}")?,
        Some(Command::Version) => println!(rt; "{VERSION}")?,
        None => return Err(Trouble::UnknownCommand(first)),
    }
    Ok(ExitCode::SUCCESS)
}

fn main(rt: HostRuntime) -> ExitCode {
    match run(&rt) {
        Ok(status) => status,
        Err(trouble) => {
            // where standard error cannot be written, the status alone tells it
            let _ = eprintln!(rt; "hall: {trouble}");
            ExitCode::FAILURE
        }
    }
}
