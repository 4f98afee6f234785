// The editions of a description, and the rule on halves that each has.
ghost use Rattle.std.specs.Prelude.{◌≡◌};
ghost use Rattle.convert.specs.Edition.{is_edition, halves_of};

// In the first halves go away from zero, in the second to the even neighbour.
pub const EDITION_ONE: u32 = 1;

pub const EDITION_TWO: u32 = 2;

// Whether there is such an edition.
pub fn is_edition(edition: u64) -> bool
    ensures { result ≡ is_edition edition }
{
    (edition == (EDITION_ONE as u64)) | (edition == (EDITION_TWO as u64))
}

// Whether a quotient of q and a half goes up, away from zero: in the second edition from an odd q alone.
pub fn goes_up(edition: u64, q: u64) -> bool
    ensures { result ≡ halves_of edition q }
{
    if edition == (EDITION_TWO as u64) {
        return q % 2 == 1;
    }
    true
}
