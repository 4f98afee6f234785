// Digits of any number: those that count, ten at most, and how many zeros follow them.
ghost use Rattle.std.specs.Prelude.{◌≡◌, ◌≤◌, ◌<◌, ◌+◌, ◌*◌, ◌^◌};
ghost use Rattle.number.specs.Decimal.{most_whole};
ghost use Rattle.decimals.specs.Inner.{Full, Adds, Gathers};

use crate::tens::MOST_NINE;
use number::digits::{NoForm, digit_of};

// The number m with z zeros after it.
#[derive(Clone, Copy)]
pub struct Part {
    pub m: u64,
    pub z: usize,
}

// Digits from a place on: where they end, and the number that they make with those before.
#[derive(Clone, Copy)]
pub struct Gathered {
    pub end: usize,
    pub part: Part,
}

// One digit d after a number, where ten digits at most count.
fn added(p: Part, d: u8) -> Result<Part, NoForm>
    requires { (p.m ≤ most_whole) × Full p × (p.z < 18446744073709551615) × (d < 10) }
    ensures { Adds (p.m * 10 ^ p.z * 10 + d) p.z result }
{
    if p.m <= MOST_NINE {
        return Ok(Part {
            m: p.m * 10 + (d as u64),
            z: 0,
        });
    }
    if d == 0 {
        return Ok(Part { z: p.z + 1, ..p });
    }
    Err(NoForm)
}

// The digits from a place on, after those that make a number.
pub fn gather(s: &[u8], at: usize, before: Part) -> Result<Gathered, NoForm>
    requires { (before.m ≤ most_whole) × Full before × (before.z ≤ at) }
    ensures { Gathers s.now at (before.m * 10 ^ before.z) result }
{
    let mut part = before;
    for i in at..s.len() {
        let d = digit_of(s[i]);
        if 10 <= d {
            return Ok(Gathered { end: i, part });
        }
        part = added(part, d)?;
    }
    Ok(Gathered {
        end: at.max(s.len()),
        part,
    })
}
