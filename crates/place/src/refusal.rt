// Why an object is refused, and the number of each reason.
ghost use Rattle.std.specs.Prelude.{◌≡◌};
ghost use Rattle.place.specs.Told.{place_refusal_number};

// The reasons, in the order of their numbers: a capacity is exceeded; the layout breaks the rules of place or lacks a part, or the mask
// breaks its rule; a byte is outside the image; a stored count is out of range.
#[derive(Clone, Copy, PartialEq, Eq, Debug)]
pub enum PlaceRefusal {
    OverCapacity,
    BreaksPlace,
    OutsideImage,
    CountOutOfRange,
}

impl PlaceRefusal {
    // The number of a refusal.
    pub fn number(self) -> u8
        ensures { result ≡ place_refusal_number self }
    {
        match self {
            PlaceRefusal::OverCapacity => 8,
            PlaceRefusal::BreaksPlace => 11,
            PlaceRefusal::OutsideImage => 12,
            PlaceRefusal::CountOutOfRange => 13,
        }
    }
}
