// The library's answers as numbers.
ghost use Rattle.std.specs.Prelude.{◌≡◌, pos, neg_ℤ};
ghost use Rattle.numbers.specs.Numbers.{told_load, load_number, find_number, call_number, by_number, told_found, told_done, told_written, held_count, listing_number};

use look::refusal::CallRefusal;
use text::cursor::Refusal;

// A refusal's number and place in one number: the place times 64, and the number.
const NUMBERS: u64 = 64;

// No place in a description is so far.
const PLACES: u64 = 4294967296;

// No listing has so many bytes.
const BYTES: u64 = 9223372036854775808;

// What a load answers: 0 where it is accepted, else place and number in one.
pub fn load_number(a: Result<(), Refusal>) -> u64
    ensures { result ≡ load_number (told_load a) }
{
    match a {
        Ok(()) => 0,
        Err(r) => (r.place as u64) % PLACES * NUMBERS + (r.no as u64),
    }
}

// An answer with its refusal told by number.
pub fn by_number<T>(a: Result<T, CallRefusal>) -> Result<T, u8>
    ensures { result ≡ by_number a }
{
    match a {
        Ok(x) => Ok(x),
        Err(r) => Err(r.number()),
    }
}

// A refusal's number below zero.
fn minus(no: u8) -> i64
    ensures { result ≡ neg_ℤ (pos «no») }
{
    -(no as i64)
}

// What a search answers: the object's number, −1 where none bears the name, the refusal's number below zero.
pub fn find_number(a: Result<Option<u16>, u8>) -> i64
    ensures { result ≡ find_number (told_found a) }
{
    match a {
        Ok(Some(i)) => i as i64,
        Ok(None) => -1,
        Err(no) => minus(no),
    }
}

// What a call on the list answers: 0 where it is done, else the refusal's number.
pub fn call_number(a: Result<(), u8>) -> u32
    ensures { result ≡ call_number (told_done a) }
{
    a.err().map_or(0, |no| no as u32)
}

// What a listing answers: how many bytes, or the refusal's number below zero.
pub fn listing_number(a: Result<usize, u8>) -> i64
    ensures { result ≡ listing_number (held_count (told_written a)) }
{
    match a {
        Ok(n) => ((n as u64) % BYTES) as i64,
        Err(number) => minus(number),
    }
}
