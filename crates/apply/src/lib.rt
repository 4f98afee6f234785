// The command `apply`: a file of requests, a line each. Nothing of the reader rests on it.
#![tactic(auto)]

use console::arguments::REQUESTS;
use console::ending::{Ending, Errors, Stop};
use console::kept::{Columns, Element, Loaded};
use console::message::{error_about, say_refusal};
use console::sizes::TEXT_ROOM;
use files::file::read_file;
use files::replace::{Edits, keep};
use lines::field::{ends_line, field_count, field_of, without_end};
use printing::printed::print_listing;
use requests::made::make_kept;
use requests::requested::{Way, Wrong, element_named, way_of, write_one};
use std::io;

// How many fields a request has, and which they are.
const FIELDS: usize = 5;

const NAME: usize = 0;

const PART: usize = 1;

const INDEX: usize = 2;

const WAY: usize = 3;

const VALUE: usize = 4;

// Room for the answers: a request has ten bytes or more.
const ANSWERS: usize = 4096;

// A request: the element, how its value is written, and the value.
#[derive(Clone, Copy)]
struct Request<'a> {
    element: Element,
    way: Way,
    value: &'a [u8],
}

// The answer to a line: its write is done or refused, or it was not carried out, since it is no request.
#[derive(Clone, Copy, PartialEq, Eq)]
enum Answer {
    Done,
    Refused(u8),
    NotCarriedOut,
}

// The request of one line.
fn request_in<'a>(d: Loaded<'_>, image: &[u8], line: &'a [u8]) -> Result<Request<'a>, Wrong<'a>> {
    if field_count(line) != FIELDS {
        return Err(Wrong::Fields);
    }
    let element = element_named(
        d,
        image,
        field_of(line, NAME),
        field_of(line, PART),
        field_of(line, INDEX),
    )?;
    let way = way_of(field_of(line, WAY))?;
    let value = field_of(line, VALUE);
    Ok(Request {
        element,
        way,
        value,
    })
}

// Says what is wrong with line n.
fn complain_of_line(rt: &(impl Print + Errors), n: usize, wrong: Wrong<'_>) -> io::Result<()> {
    if let Wrong::Refused(no) = wrong {
        return say_refusal(rt, no);
    }
    error_about(
        rt,
        format_args!("line {n} of the requests: {wrong}"),
        wrong.word(),
    );
    Ok(())
}

// Looks whether every line is a request; what is wrong with the first that is none is said.
fn check_requests(rt: &(impl Print + Errors), d: Loaded<'_>, image: &[u8], q: &[u8]) -> Ending {
    for (n, line) in (1..).zip(q.split_inclusive(ends_line)) {
        if let Err(wrong) = request_in(d, image, without_end(line)) {
            complain_of_line(rt, n, wrong)?;
            return Err(Stop::Failed);
        }
    }
    Ok(())
}

// Carries out the request of one line.
fn answer_to(
    rt: &impl Print,
    d: Loaded<'_>,
    image: &mut [u8],
    kept: &mut Columns,
    line: &[u8],
) -> io::Result<Answer> {
    match request_in(d, image, line) {
        Ok(r) => match write_one(d, image, kept, r.element, r.way, r.value) {
            Ok(()) => Ok(Answer::Done),
            Err(r) => Ok(Answer::Refused(r.number())),
        },
        Err(Wrong::Refused(no)) => {
            say_refusal(rt, no)?;
            Ok(Answer::NotCarriedOut)
        }
        Err(_) => Ok(Answer::NotCarriedOut),
    }
}

// Carries out the requests in turn, and notes an answer for each.
fn apply_all(
    rt: &impl Print,
    d: Loaded<'_>,
    image: &mut [u8],
    kept: &mut Columns,
    q: &[u8],
    answers: &mut [Answer],
) -> io::Result<()> {
    for (answer, line) in answers.iter_mut().zip(q.split_inclusive(ends_line)) {
        *answer = answer_to(rt, d, image, kept, without_end(line))?;
    }
    Ok(())
}

// Writes the answers, a line each.
fn print_answers(rt: &impl Print, answers: &[Answer]) -> io::Result<()> {
    for answer in answers {
        match answer {
            Answer::Done => println!(rt; "ok")?,
            Answer::Refused(no) => println!(rt; "refused {no}")?,
            Answer::NotCarriedOut => println!(rt; "not carried out")?,
        }
    }
    Ok(())
}

// How the answers let the program end: failed where a line was not carried out, refused where a write is.
fn ending_of(answers: &[Answer]) -> Ending {
    if answers.contains(&Answer::NotCarriedOut) {
        return Err(Stop::Failed);
    }
    if answers.iter().any(|a| *a != Answer::Done) {
        return Err(Stop::Refused);
    }
    Ok(())
}

// Replaces the image's file where a write is done, and writes the answers and the listing.
fn print_kept(
    rt: &(impl Print + Edits),
    d: Loaded<'_>,
    image: &[u8],
    kept: &Columns,
    answers: &[Answer],
) -> Ending {
    if answers.contains(&Answer::Done) {
        keep(rt, image)?;
    }
    print_answers(rt, answers)?;
    print_listing(rt, d, image, kept)?;
    ending_of(answers)
}

// Carries out the requests, which are all well formed, on the list that is made of the image, and goes on with their answers.
fn apply_requests(rt: &(impl Print + Edits), d: Loaded<'_>, image: &mut [u8], q: &[u8]) -> Ending {
    let mut kept = Columns::zeros();
    make_kept(rt, d, image, &mut kept)?;
    let mut noted = [Answer::NotCarriedOut; ANSWERS];
    let Some(answers) = noted.get_mut(..q.split_inclusive(ends_line).count()) else {
        return Err(error_about(
            rt,
            "there are more requests than answers can be kept of",
            b"",
        ));
    };
    apply_all(rt, d, image, &mut kept, q, answers)?;
    print_kept(rt, d, image, &kept, answers)
}

// Reads the request file and carries it out; where a line is no request nothing at all is written.
pub fn apply(rt: &(impl Print + Edits), d: Loaded<'_>, image: &mut [u8]) -> Ending {
    let mut buffer = [0u8; TEXT_ROOM];
    let q = read_file(rt, REQUESTS, "the request file", &mut buffer)?;
    check_requests(rt, d, image, q)?;
    apply_requests(rt, d, image, q)
}
