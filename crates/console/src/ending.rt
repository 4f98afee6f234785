// How the program ends, and what it says on the way: answers on standard output, errors on standard error. Who says an answer hands on that
// it could not be written, so that nothing is written after a word that is lost.
use std::io;
use std::io::ErrorKind;
use std::process::ExitCode;

// The exit status where what was asked was refused, and where an error was said.
const REFUSED: u8 = 1;

const FAILED: u8 = 2;

// Why the program ends before what was asked is done: it was refused, an error was said, or an answer could not be written.
#[derive(Clone, Copy)]
pub enum Stop {
    Refused,
    Failed,
    Lost(io::Error),
}

impl Stop {
    // A refusal that was said, or that could not be.
    pub fn refused(said: io::Result<()>) -> Stop {
        match said {
            Ok(()) => Stop::Refused,
            Err(error) => Stop::Lost(error),
        }
    }
}

impl From<io::Error> for Stop {
    fn from(error: io::Error) -> Stop {
        Stop::Lost(error)
    }
}

// What was asked is done, or why it is not.
pub type Ending = Result<(), Stop>;

// Standard error, which takes bytes that are no text too.
pub trait Errors: Eprint {
    fn write_error(&self, words: &[u8]) -> io::Result<()>;
}

impl Errors for HostRuntime {
    fn write_error(&self, words: &[u8]) -> io::Result<()> {
        Print::write_all(&self.stderr(), words)
    }
}

// Whether all that was said has been written, and standard output still takes words.
pub fn heard(rt: &impl Print, said: Ending) -> Ending {
    if let Err(Stop::Lost(_)) = said {
        return said;
    }
    rt.write_some(b"")?;
    said
}

// Says that output was lost, but where a reader has heard enough and left: it knows that it did, and nobody else is told of it.
fn complain_of_loss(rt: &impl Errors, error: io::Error) {
    if error.kind() != ErrorKind::BrokenPipe {
        let _ = eprintln!(rt; "error: the output could not be written");
    }
}

// Ends the program; output that could not be written is an error.
pub fn end(rt: &(impl Print + Errors), said: Ending) -> ExitCode {
    match heard(rt, said) {
        Ok(()) => ExitCode::SUCCESS,
        Err(Stop::Refused) => ExitCode::from(REFUSED),
        Err(Stop::Failed) => ExitCode::from(FAILED),
        Err(Stop::Lost(error)) => {
            complain_of_loss(rt, error);
            ExitCode::from(FAILED)
        }
    }
}
