// What an object rests on: its layout, with its number, and its ground.
ghost use Rattle.std.specs.Prelude.{◌≡◌, min};
ghost use Rattle.rows.specs.Sections.{object};
ghost use Rattle.rows.specs.Slots.{object_address};
ghost use Rattle.grammar.specs.Move.{view_in};
ghost use Rattle.objects.specs.Object.{aligns_of, first_of, basis_of};

use crate::ground::{aligns_of, first_of};
use crate::layout::{layout_at, layout_number, measured};
use grammar::view::{OBJECT, slot_of};
use place::order::Layout;
use place::walk::Ground;
use rows::slots::{BLOCK_CODE, OBJECT_ADDRESS, OBJECT_TYPE};
use words::codes::MEASUREMENT;

// The number of an object's layout, the layout, and the object's ground.
#[derive(Clone, Copy)]
pub struct Basis {
    pub number: u16,
    pub layout: Layout,
    pub footing: Ground,
}

// The greatest address.
const ADDRESS: u64 = 4294967295;

// The ground of object i, whose layout has the number l.
fn ground_by(t: &[u64], base: u32, i: u16, l: u16) -> Ground
    ensures { result ≡ record { address = min ((view_in t.now).slots object i object_address) 4294967295; base = base; first = first_of (view_in t.now) i; aligns = aligns_of (view_in t.now) l } }
{
    let address = slot_of(t, OBJECT, i, OBJECT_ADDRESS).min(ADDRESS) as u32;
    let first = first_of(t, i);
    let aligns = aligns_of(t, l);
    Ground {
        address,
        base,
        first,
        aligns,
    }
}

// What object i rests on: its layout is searched for once.
pub fn basis_of(x: &[u8], t: &[u64], base: u32, i: u16) -> Basis
    ensures { result ≡ basis_of x.now (view_in t.now) base i }
{
    let number = layout_number(x, t, i);
    let footing = ground_by(t, base, i, number);
    if slot_of(t, OBJECT, i, BLOCK_CODE) == (MEASUREMENT as u64) {
        let layout = measured(slot_of(t, OBJECT, i, OBJECT_TYPE));
        return Basis {
            number,
            layout,
            footing,
        };
    }
    let layout = layout_at(t, number);
    Basis {
        number,
        layout,
        footing,
    }
}
