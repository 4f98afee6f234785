// How the program is called.
use crate::arguments::{COMMAND, Task};
use crate::called::word_at;
use crate::ending::{Ending, Errors, Stop};
use crate::message::error_about;
use std::rt::Env;

// The line of one command.
fn line_of(task: Task) -> &'static str {
    match task {
        Task::List => "obarsivel list DESC IMAGE BASE",
        Task::Get => "obarsivel get DESC IMAGE BASE NAME PART INDEX",
        Task::Set => "obarsivel set DESC IMAGE BASE NAME PART INDEX raw|phys VALUE",
        Task::Apply => "obarsivel apply DESC IMAGE BASE REQUESTS",
    }
}

// What the words of the commands stand for.
const WORDS: [&'static str; 3] = [
    "DESC is an A2L description, IMAGE a memory image's file, BASE the address of its first byte (decimal or 0x hex).",
    "PART is x, y or v; REQUESTS a file of lines NAME PART INDEX raw|phys VALUE, parted by tabs.",
    "--edition E before the command gives the description's edition, 1 or 2; without it the edition is 1.",
];

// Says how the program is called.
pub fn print_usage(rt: &impl Print) -> Ending {
    for task in [Task::List, Task::Get, Task::Set, Task::Apply] {
        rt.println(line_of(task))?;
    }
    rt.println("obarsivel help")?;
    for line in WORDS {
        rt.println(line)?;
    }
    Ok(())
}

// Says how a command is called that had another number of words.
pub fn wrong_words(rt: &impl Errors, task: Task) -> Stop {
    let _ = eprintln!(rt; "error: usage: {}", line_of(task));
    Stop::Failed
}

// Says that there is no command of that name.
pub fn no_command(rt: &(impl Env + Errors)) -> Stop {
    error_about(
        rt,
        "obarsivel help lists the commands; there is none named ",
        word_at(rt, COMMAND).bytes(),
    )
}
