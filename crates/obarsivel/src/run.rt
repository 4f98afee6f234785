// A command from its files on: they are read, the description is loaded, and the command is carried out.
use apply::apply;
use commands::get::get;
use commands::listed::list;
use commands::set::set;
use console::arguments::{BASE, DESCRIPTION, IMAGE, NoBase, Task, base_typed, edition_typed};
use console::called::word_at;
use console::ending::{Ending, Errors, Stop};
use console::kept::Loaded;
use console::message::{error_about, refused, refused_load};
use console::sizes::{IMAGE_ROOM, TABLE_CELLS, TEXT_ROOM, WORK_CELLS};
use files::file::read_file;
use files::replace::Edits;
use load::load;
use std::rt::Env;
use tables::setting::Setting;

// "base plus image above 2^32"
const SIZES: u8 = 20;

// Loads the description, and carries out the command on the image.
fn run_loaded(
    rt: &(impl Print + Edits),
    task: Task,
    x: &[u8],
    image: &mut [u8],
    s: Setting,
) -> Ending {
    let mut t = [0u64; TABLE_CELLS];
    let mut work = [0u64; WORK_CELLS];
    load(x, image, s, &mut t, &mut work).map_err(|r| refused_load(rt, x, r.no, r.place))?;
    let d = Loaded {
        x,
        base: s.base,
        t: &t,
    };
    match task {
        Task::List => list(rt, d, image),
        Task::Get => get(rt, d, image),
        Task::Set => set(rt, d, image),
        Task::Apply => apply(rt, d, image),
    }
}

// Reads the description, and then the image, and goes on with them.
fn run_from(rt: &(impl Print + Edits), task: Task, s: Setting) -> Ending {
    let mut text = [0u8; TEXT_ROOM];
    let x = read_file(rt, DESCRIPTION, "the description", &mut text)?;
    let mut room = [0u8; IMAGE_ROOM];
    let image = read_file(rt, IMAGE, "the image", &mut room)?;
    run_loaded(rt, task, x, image, s)
}

// Says why there is no base address.
fn no_base(rt: &(impl Print + Env + Errors), why: NoBase) -> Stop {
    match why {
        NoBase::TooLarge => refused(rt, SIZES),
        NoBase::NoNumber => error_about(
            rt,
            "the base address is no whole number: ",
            word_at(rt, BASE).bytes(),
        ),
    }
}

// Takes the base address and the edition, and goes on with the files.
pub fn run(rt: &(impl Print + Edits), task: Task) -> Ending {
    let base = base_typed(rt).map_err(|why| no_base(rt, why))?;
    let edition = edition_typed(rt);
    run_from(rt, task, Setting { base, edition })
}
