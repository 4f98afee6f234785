// The program: lists, reads and writes the elements that a description finds in an image. README.md shows how it is used.
#![tactic(auto)]

mod run;

use crate::run::run;
use console::arguments::{Command, Task, command_typed, has_words};
use console::ending::{Ending, end};
use console::usage::{no_command, print_usage, wrong_words};
use files::replace::Edits;
use std::process::ExitCode;

// Runs a command that has the words it needs.
fn run_whole(rt: &(impl Print + Edits), task: Task) -> Ending {
    if has_words(rt, task) {
        return run(rt, task);
    }
    Err(wrong_words(rt, task))
}

// Runs what the program was called with.
fn run_typed(rt: &(impl Print + Edits)) -> Ending {
    match command_typed(rt) {
        Some(Command::Help) => print_usage(rt),
        Some(Command::Task(task)) => run_whole(rt, task),
        None => Err(no_command(rt)),
    }
}

fn main(rt: HostRuntime) -> ExitCode {
    end(&rt, run_typed(&rt))
}
