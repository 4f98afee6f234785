// The whole load: a description read, judged and turned into tables, or refused.
#![tactic(auto)]

ghost use Rattle.std.specs.Prelude.{◌≡◌, ◌≤◌, length, replicate};
ghost use Rattle.records.specs.Cells.{room};
ghost use Rattle.rows.specs.Sections as records;
ghost use Rattle.grammar.specs.Move.{view_in};
ghost use Rattle.objects.specs.Stage.{told_turn};
ghost use Rattle.tables.specs.Form.{table_sections};
ghost use Rattle.load.specs.Load.{judged_last, judged_all, filling, filled, filled_of, described, left, loaded, loaded_of};

use built::build;
use convert::edition::is_edition;
use engine::read::read;
use grammar::view::ROOM;
use methods::convert_all;
use refer::refer_all;
use tables::setting::Setting;
use tables::sizes::sizes_fit;
use text::cursor::Refusal;
use turns::judge_all;

// A lent buffer is too short, text or image too long, or base plus image above 2^32.
const SIZES: u8 = 20;

// The edition is neither 1 nor 2.
const NO_EDITION: u8 = 33;

// The conversions, then the objects.
fn judge_last(image: &[u8], base: u32, x: &[u8], t: &[u64]) -> Result<u32, Refusal>
    ensures { told_turn result ≡ judged_last image.now base x.now (view_in t.now) }
{
    convert_all(t)?;
    judge_all(image, base, x, t)
}

// The references, the conversions, the objects.
fn judge_records(image: &[u8], base: u32, x: &[u8], t: &[u64]) -> Result<u32, Refusal>
    ensures { told_turn result ≡ judged_all image.now base x.now (view_in t.now) }
{
    refer_all(x, t)?;
    judge_last(image, base, x, t)
}

// The records judged, and the tables, which are zeros, filled where all is well.
fn fill(x: &[u8], image: &[u8], s: Setting, tables: &mut [u64], t: &[u64]) -> Result<(), Refusal>
    requires { (tables.old ≡ replicate (length tables.old) 0) × (room table_sections ≤ length tables.old) }
    ensures { filled_of result tables.new ≡ filled (length tables.old) (filling image.now s x.now (view_in t.now)) }
{
    let elements = judge_records(image, s.base, x, t)?;
    build(image, s, x, t, tables, elements);
    Ok(())
}

// A load by an edition there is, into buffers that are long enough.
fn load_into(
    x: &[u8],
    image: &[u8],
    s: Setting,
    tables: &mut [u64],
    work: &mut [u64],
) -> Result<(), Refusal>
    requires { (room table_sections ≤ length tables.old) × (room records.sections ≤ length work.old) }
    ensures { loaded_of result tables.new work.new ≡ left (length tables.old) (length work.old) (described image.now s x.now) }
{
    records::clear(tables);
    read(x, work)?;
    let answer = fill(x, image, s, tables, work);
    records::clear(work);
    answer
}

// Loads a description into tables; a refusal leaves tables and work zero, and 20 and 33 leave them untouched.
pub fn load(
    x: &[u8],
    image: &[u8],
    s: Setting,
    tables: &mut [u64],
    work: &mut [u64],
) -> Result<(), Refusal>
    ensures { loaded_of result tables.new work.new ≡ loaded x.now image.now s tables.old work.old }
{
    let fits = sizes_fit(x.len(), image.len(), s.base, tables.len());
    if fits & ((ROOM as usize) <= work.len()) {
        if is_edition(s.edition as u64) {
            return load_into(x, image, s, tables, work);
        }
        return Err(Refusal {
            no: NO_EDITION,
            place: 0,
        });
    }
    Err(Refusal {
        no: SIZES,
        place: 0,
    })
}
