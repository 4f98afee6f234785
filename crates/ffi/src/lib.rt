// The calls as C functions, thin over the library: include/obarsivel.h says what each takes and answers.
#![tactic(auto)]

ghost use Rattle.std.specs.Prelude.{◌≡◌, length};
ghost use Rattle.load.specs.Load.{loaded};
ghost use Rattle.look.specs.Calls.{lent_of, kept, searched, reading, making, raw_number, physical_text, request, writing};
ghost use Rattle.listing.specs.Listing.{listing};
ghost use Rattle.numbers.specs.Numbers.{version, load_call, load_told, find_number, read_call, read_told, list_call, list_told, listing_call, listing_told};

use list::make::make_list;
use list::write::{write_physical, write_raw};
use listings::whole::listing;
use load::load;
use look::read::read;
use look::refusal::CallRefusal;
use named::search;
use numbers::told::{by_number, call_number, find_number, listing_number, load_number};
use numbers::version::version_number;
use readings::{has_room, put_reading};
use tables::setting::Setting;

// The version: MAJOR times 65536, MINOR times 256, and PATCH.
#[unsafe(no_mangle)]
pub extern "C" fn obarsivel_version() -> u32
    ensures { result ≡ version }
{
    version_number()
}

// Loads a description: 0, or the refusal's place times 64 and its number.
#[unsafe(no_mangle)]
pub extern "C" fn obarsivel_load(
    text: &[u8],
    image: &[u8],
    base: u32,
    edition: u32,
    tables: &mut [u64],
    work: &mut [u64],
) -> u64
    ensures { load_call result tables.new work.new ≡ load_told (loaded text.now image.now (record { base = base; edition = edition }) tables.old work.old) }
{
    load_number(load(text, image, Setting { base, edition }, tables, work))
}

// The number of the object that bears a name; −1 where none does, or −20, −22.
#[unsafe(no_mangle)]
pub extern "C" fn obarsivel_find(
    text: &[u8],
    image: &[u8],
    base: u32,
    tables: &[u64],
    name: &[u8],
) -> i64
    ensures { result ≡ find_number (searched text.now tables.now (lent_of (length text.now) (length image.now) base) name.now) }
{
    find_number(by_number(search(text, image, base, tables, name)))
}

// Reads an element: 0 and its five numbers and the shown one, or the refusal's number.
#[unsafe(no_mangle)]
pub extern "C" fn obarsivel_read(
    text: &[u8],
    image: &[u8],
    base: u32,
    tables: &[u64],
    object: u32,
    part: u8,
    index: u32,
    out: &mut [i64],
    shown: &mut [f64],
) -> u32
    ensures { read_call result out.new shown.new
        ≡ read_told (reading tables.now image.now (lent_of (length text.now) (length image.now) base) object part index) out.old shown.old }
{
    if !has_room(out.len(), shown.len()) {
        return CallRefusal::BadSize.number() as u32;
    }
    match read(text, image, base, tables, object, part, index) {
        Ok(r) => {
            put_reading(out, shown, r.raw, r.physical, r.shown);
            0
        }
        Err(r) => r.number() as u32,
    }
}

// Makes the list: 0 or the refusal's number.
#[unsafe(no_mangle)]
pub extern "C" fn obarsivel_make_list(
    text: &[u8],
    image: &[u8],
    base: u32,
    tables: &[u64],
    raw: &mut [i64],
    state: &mut [u8],
    first: &mut [i64],
    second: &mut [i64],
) -> u32
    ensures { list_call result (kept image.now raw.new state.new first.new second.new)
        ≡ list_told (making tables.now (length text.now) base (kept image.now raw.old state.old first.old second.old)) }
{
    let made = make_list(text, image, base, tables, raw, state, first, second);
    call_number(by_number(made))
}

// Writes a raw number: 0 or the refusal's number.
#[unsafe(no_mangle)]
pub extern "C" fn obarsivel_write_raw(
    text: &[u8],
    image: &mut [u8],
    base: u32,
    tables: &[u64],
    raw: &mut [i64],
    state: &mut [u8],
    first: &mut [i64],
    second: &mut [i64],
    object: u32,
    part: u8,
    index: u32,
    value: i64,
) -> u32
    ensures { list_call result (kept image.new raw.new state.new first.new second.new)
        ≡ list_told (writing tables.now (length text.now) base (kept image.old raw.old state.old first.old second.old)
        (request object part index (raw_number value))) }
{
    let written = write_raw(
        text, image, base, tables, raw, state, first, second, object, part, index, value,
    );
    call_number(by_number(written))
}

// Writes a physical value, asked in text: 0 or the refusal's number.
#[unsafe(no_mangle)]
pub extern "C" fn obarsivel_write_physical(
    text: &[u8],
    image: &mut [u8],
    base: u32,
    tables: &[u64],
    raw: &mut [i64],
    state: &mut [u8],
    first: &mut [i64],
    second: &mut [i64],
    object: u32,
    part: u8,
    index: u32,
    asked: &[u8],
) -> u32
    ensures { list_call result (kept image.new raw.new state.new first.new second.new)
        ≡ list_told (writing tables.now (length text.now) base (kept image.old raw.old state.old first.old second.old)
        (request object part index (physical_text asked.now))) }
{
    let written = write_physical(
        text, image, base, tables, raw, state, first, second, object, part, index, asked,
    );
    call_number(by_number(written))
}

// Prints the listing: how many bytes, or minus the refusal's number.
#[unsafe(no_mangle)]
pub extern "C" fn obarsivel_listing(
    text: &[u8],
    image: &[u8],
    base: u32,
    tables: &[u64],
    raw: &[i64],
    state: &[u8],
    first: &[i64],
    second: &[i64],
    out: &mut [u8],
) -> i64
    ensures { listing_call result out.new
        ≡ listing_told (listing text.now tables.now base (kept image.now raw.now state.now first.now second.now) out.old) }
{
    let printed = listing(text, image, base, tables, raw, state, first, second, out);
    listing_number(by_number(printed))
}
