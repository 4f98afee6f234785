// The tables that a load leaves.
#![tactic(auto)]

mod group;

ghost use Rattle.std.specs.Prelude.{◌≡◌, [], ◌∷◌, ◌≤◌, length, replicate};
ghost use Rattle.records.specs.Cells.{room, encode};
ghost use Rattle.grammar.specs.Move.{view_in};
ghost use Rattle.tables.specs.Form.{table_sections, head_section};
ghost use Rattle.build.specs.Build.{built};
ghost use Rattle.build.specs.Row.{row_in};

use crate::group::put_groups;
use build::method::put_methods;
use build::object::put_objects;
use build::row::put_row;
use build::table::{put_entries, put_tables};
use tables::form::HEAD;
use tables::setting::Setting;

// The head: the edition, the size mark, how many elements all objects have.
fn put_head(u: &mut [u64], edition: u32, elements: u32)
    ensures { u.new ≡ row_in u.old head_section (edition ∷ 0 ∷ elements ∷ []) }
{
    put_row(u, HEAD, &[edition as u64, 0, elements as u64]);
}

// Fills the tables, which are zeros, with the edition and with what calls need of the records t and of where the objects stand.
pub fn build(image: &[u8], s: Setting, x: &[u8], t: &[u64], u: &mut [u64], elements: u32)
    requires { (u.old ≡ replicate (length u.old) 0) × (room table_sections ≤ length u.old) }
    ensures { u.new ≡ encode table_sections (length u.old) (built image.now s x.now (view_in t.now) elements) }
{
    put_head(u, s.edition, elements);
    put_objects(u, t);
    put_groups(u, image, s.base, x, t);
    put_methods(u, x, t);
    put_tables(u, t);
    put_entries(u, t);
}
