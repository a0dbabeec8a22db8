// The line box as a program: two stations over working memory, polled by standard input.

#![tactic(auto)]

mod input;
mod line_box;
mod options;
mod session;
#[cfg(test)]
mod tests;

use crate::input::Input;
use crate::line_box::LineBox;
use crate::options::Word;
use crate::session::Session;
use memory::WorkingMemory;
use std::process::ExitCode;
use std::{env, io};
use thiserror::Error;

const HELP: &str = "linebox: two CSA-109-T stations, S001 and S1A0, polled by standard input

usage: linebox [--hex] [--help]

Each octet of standard input is one octet received from the line. Each answer is printed as a line
of its octets, two capital hexadecimal digits each, with one space between; each dropped frame as a
line 'dropped N' with its fault: 21 damaged octet (above 7F), 22 more than 251 octets, 23 fewer than
8 octets, 24 wrong checksum, 25 station not enrolled. Nothing else is printed. The program ends with
status 0 at the end of its input, and reads it in at most 18446744073709551615 turns.

  --hex   takes the input as hexadecimal text: pairs of digits, any white space between pairs, and
          comments from '#' to the end of the line. Other text ends the program with status 1 and a
          message that names line and column; nothing after it is heard.
  --help  prints this.

The shares hold 50 events and 48 half hours for each station.
";

#[derive(Debug, Drop, Error)]
enum Failure {
    // Told whole: an `anyhow::Error` would keep no more than 120 octets of it.
    #[error("unknown argument '{0}'; see --help")]
    UnknownArgument(String),
    #[error(transparent)]
    Io(#[from] io::Error),
    #[error(transparent)]
    Polling(#[from] anyhow::Error),
}

// What the arguments ask for.
// Kept: a `try_fold` over the arguments would do in one line what the two lines of the loop say.
fn word_asked(rt: &HostRuntime) -> Result<Option<Word>, Failure> {
    let mut asked = None;
    for argument in env::args(rt)?.skip(1) {
        let word = Word::read(argument.as_bytes()).ok_or(Failure::UnknownArgument(argument))?;
        asked = asked.max(Some(word));
    }
    Ok(asked)
}

fn poll(rt: &HostRuntime, input: Input) -> anyhow::Result<()> {
    let mut cells = [0; 56];
    let mut memory = WorkingMemory { cells: &mut cells };
    let line_box = LineBox::new(&mut memory)?;
    // Kept: `Session::new` does not make the box itself, since the checker refuses a `Result` of a session: "a type argument holds a `&mut` and a struct that has a ghost field".
    Session::new(rt, input, line_box, memory).listen()
}

fn run(rt: &HostRuntime) -> Result<(), Failure> {
    match word_asked(rt)? {
        Some(Word::Help) => rt.print(HELP)?,
        Some(Word::Hex) => poll(rt, Input::hexadecimal())?,
        None => poll(rt, Input::Octets)?,
    }
    Ok(())
}

fn main(rt: HostRuntime) -> ExitCode {
    match run(&rt) {
        Ok(()) => ExitCode::SUCCESS,
        Err(failure) => {
            let _ = eprintln!(rt; "linebox: {failure}");
            ExitCode::FAILURE
        }
    }
}
