// The version, as include/obarsivel.h has it.
ghost use Rattle.std.specs.Prelude.{◌≡◌};
ghost use Rattle.numbers.specs.Numbers.{version};

const MAJOR: u32 = 0;

const MINOR: u32 = 3;

const PATCH: u32 = 0;

// The version as a number: MAJOR times 65536, MINOR times 256, and PATCH.
pub fn version_number() -> u32
    ensures { result ≡ version }
{
    MAJOR * 65536 + MINOR * 256 + PATCH
}
