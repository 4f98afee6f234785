// The program's arguments: the command, the base address, the edition, an element's part and index.
use crate::called::{edition_at, has_edition, word_at, word_count};
use convert::edition::EDITION_ONE;
use runs::whole::whole_of;
use std::rt::Env;

// Where each argument stands, an edition before the command not counted.
pub const COMMAND: u8 = 1;

pub const DESCRIPTION: u8 = 2;

pub const IMAGE: u8 = 3;

pub const BASE: u8 = 4;

pub const NAME: u8 = 5;

pub const REQUESTS: u8 = 5;

pub const PART: u8 = 6;

pub const INDEX: u8 = 7;

pub const WAY: u8 = 8;

pub const VALUE: u8 = 9;

// The greatest number that is read of a word.
const MOST_TYPED: u64 = u64::MAX;

// There is no such edition.
const NO_EDITION: u32 = 0;

// How many hexadecimal figures a number below 2^32 has at most.
const MOST_FIGURES: usize = 8;

// What a command does with an image.
#[derive(Clone, Copy)]
pub enum Task {
    List,
    Get,
    Set,
    Apply,
}

// What the program is called for.
#[derive(Clone, Copy)]
pub enum Command {
    Help,
    Task(Task),
}

// Why a word is no base address: it writes a number of 2^32 or more, or none.
#[derive(Clone, Copy)]
pub enum NoBase {
    TooLarge,
    NoNumber,
}

// The command that a word names.
fn command_of(word: &[u8]) -> Option<Command> {
    match word {
        b"list" => Some(Command::Task(Task::List)),
        b"get" => Some(Command::Task(Task::Get)),
        b"set" => Some(Command::Task(Task::Set)),
        b"apply" => Some(Command::Task(Task::Apply)),
        b"help" | b"--help" | b"-h" => Some(Command::Help),
        _ => None,
    }
}

// The command that the program was called with; help where there is no word.
pub fn command_typed(rt: &impl Env) -> Option<Command> {
    if word_count(rt) < 2 {
        return Some(Command::Help);
    }
    command_of(word_at(rt, COMMAND).bytes())
}

// How many words a command has, the program's name among them.
fn words_of(task: Task) -> usize {
    match task {
        Task::List => 5,
        Task::Get => 8,
        Task::Set => 10,
        Task::Apply => 6,
    }
}

// Whether a command was called with the words that it has.
pub fn has_words(rt: &impl Env, task: Task) -> bool {
    word_count(rt) == words_of(task)
}

// Whether a byte is a figure of a decimal or of a hexadecimal number.
fn is_figure(b: u8, hex: bool) -> bool {
    if hex {
        b.is_ascii_hexdigit()
    } else {
        b.is_ascii_digit()
    }
}

// Whether there are figures alone, and so many, needless zeros aside, that they write a number of 2^32 or more.
fn has_many(figures: &[u8], hex: bool) -> bool {
    let Some(first) = figures.iter().position(|b| *b != b'0') else {
        return false;
    };
    let rest = &figures[first..];
    MOST_FIGURES < rest.len() && rest.iter().all(|b| is_figure(*b, hex))
}

// Whether a word that was found to be no whole number of 64 bits writes a greater one.
fn is_large(word: &[u8]) -> bool {
    match word.strip_prefix(b"0x") {
        Some(figures) => has_many(figures, true),
        None => has_many(word, false),
    }
}

// The base address that a word writes.
fn base_of(word: &[u8]) -> Result<u32, NoBase> {
    match whole_of(word, MOST_TYPED) {
        Ok(b) => u32::try_from(b).map_err(|_| NoBase::TooLarge),
        Err(_) if is_large(word) => Err(NoBase::TooLarge),
        Err(_) => Err(NoBase::NoNumber),
    }
}

// The base address that the program was called with.
pub fn base_typed(rt: &impl Env) -> Result<u32, NoBase> {
    base_of(word_at(rt, BASE).bytes())
}

// The edition that a word names; one that there is not where it is no number, or greater than 32 bits hold.
fn edition_of(word: &[u8]) -> u32 {
    match whole_of(word, MOST_TYPED) {
        Ok(e) => u32::try_from(e).unwrap_or(NO_EDITION),
        Err(_) => NO_EDITION,
    }
}

// The edition that the program was called with, and the first where none was named.
pub fn edition_typed(rt: &impl Env) -> u32 {
    if has_edition(rt) {
        return edition_of(edition_at(rt).bytes());
    }
    EDITION_ONE
}

// The index that a word names; one that no element has where it is greater than 32 bits hold.
pub fn index_of(word: &[u8]) -> Option<u32> {
    let i = whole_of(word, MOST_TYPED).ok()?;
    Some(u32::try_from(i).unwrap_or(u32::MAX))
}
