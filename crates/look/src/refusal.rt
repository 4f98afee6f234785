// What the calls on loaded tables refuse.
ghost use Rattle.std.specs.Prelude.{◌≡◌};
ghost use Rattle.look.specs.declared.refusal.CallRefusal.TheVariants.{Raw};
ghost use Rattle.look.specs.Refused.{refusal_number};

use convert::asked::RawRefusal;

#[derive(Clone, Copy)]
pub enum CallRefusal {
    // "no such element"
    NoElement,
    // No raw number for what is written.
    Raw(RawRefusal),
    // "the element to write shares a byte with any stored count"
    OnCount,
    // "a lent buffer is too short or too long"
    BadSize,
    // "writing forbidden"
    Forbidden,
    // "tables break the table rule"
    BrokenRule,
}

impl CallRefusal {
    // Its number in the list of refusals.
    pub fn number(self) -> u8
        ensures { result ≡ refusal_number self }
    {
        match self {
            CallRefusal::NoElement => 14,
            CallRefusal::Raw(r) => r.number(),
            CallRefusal::OnCount => 19,
            CallRefusal::BadSize => 20,
            CallRefusal::Forbidden => 21,
            CallRefusal::BrokenRule => 22,
        }
    }
}

impl From<RawRefusal> for CallRefusal {
    ghost from_gives = { λ r e. e ≡ Raw r };

    // A raw number's refusal is the call's.
    fn from(r: RawRefusal) -> CallRefusal {
        CallRefusal::Raw(r)
    }
}
