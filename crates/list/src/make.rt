// Making a list.
ghost use Rattle.std.specs.Prelude.{◌≡◌, length};
ghost use Rattle.look.specs.Calls.{kept, making};
ghost use Rattle.look.specs.Told.{after};

use afresh::refresh::refresh;
use look::check::check;
use look::refusal::CallRefusal;
use look::room::{is_enough, room_of};

// Makes the list of an image: a line for each element.
pub fn make_list(
    x: &[u8],
    image: &[u8],
    base: u32,
    t: &[u64],
    raw: &mut [i64],
    state: &mut [u8],
    first: &mut [i64],
    second: &mut [i64],
) -> Result<(), CallRefusal>
    ensures { after result (kept image.now raw.new state.new first.new second.new)
        ≡ making t.now (length x.now) base (kept image.now raw.old state.old first.old second.old) }
{
    let lines = room_of(raw.len(), state.len(), first.len(), second.len());
    check(x.len(), image.len(), base, t, is_enough(t, lines))?;
    refresh(t, image, raw, state, first, second, true, 0, 0);
    Ok(())
}
