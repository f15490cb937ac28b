// Which fields of an instruction may be other than 0.
ghost use Rattle.std.specs.Prelude.{◌≡◌};
ghost use Rattle.isa.specs.Fields.{used, unused_clear};

// A field of an instruction, behind its kind.
#[derive(Clone, Copy, PartialEq, Eq, Debug)]
pub enum Field {
    D,
    S,
    C,
}

// A row for each kind of instruction, with a mark for d, s and c.
const USED: [[bool; 3]; 8] = [
    // Set
    [true, false, true],
    // Add
    [true, true, true],
    // Sub
    [true, true, true],
    // Branch
    [true, false, true],
    // Load
    [true, true, true],
    // Store
    [true, true, true],
    // Commit
    [false, false, false],
    // Reconcile
    [false, false, false],
];

// Whether a field may be other than 0. The kind is a byte as it came in, which may name no
// instruction, so it is no enum yet.
pub fn is_used(kind: u8, field: Field) -> bool
    ensures { result ≡ used kind field }
{
    USED.get(kind as usize)
        .is_some_and(|marks| marks[field as usize])
}

// Whether every field that the kind does not use is 0.
pub fn unused_are_zero(kind: u8, d: u8, s: u8, c: u8) -> bool
    ensures { result ≡ unused_clear kind d s c }
{
    (is_used(kind, Field::D) || d == 0)
        && (is_used(kind, Field::S) || s == 0)
        && (is_used(kind, Field::C) || c == 0)
}
