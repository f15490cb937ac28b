// What tells the four kinds apart, by their numbers.
// The number is a const parameter of each machine, which can be no enum, and any u8 is answered
// for.
ghost use Rattle.std.specs.Prelude.{◌≡◌};
ghost use Rattle.kinds.specs.Kinds.{keeps_copies, lands_directly, lands_in_order};

// Stores land directly: SC.
pub fn lands_directly(kind: u8) -> bool
    ensures { result ≡ lands_directly kind }
{
    kind == 0
}

// Only a processor's oldest store lands: TSO.
pub fn lands_in_order(kind: u8) -> bool
    ensures { result ≡ lands_in_order kind }
{
    kind == 1
}

// Every copy that a landing allows is kept: WMM.
pub fn keeps_copies(kind: u8) -> bool
    ensures { result ≡ keeps_copies kind }
{
    kind >= 3
}
