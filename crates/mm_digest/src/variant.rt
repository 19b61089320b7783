ghost use Rattle.std.specs.Prelude.{◌≡◌, ◌≢◌, MatchOption};

/// How a platform keeps its place: in the cell alone, or in a register too.
#[derive(Clone, Copy, PartialEq, Eq)]
pub enum Variant {
    /// One write of the cell for each request.
    Basic,
    /// One extension of the register for each request; the cell is written once a segment.
    Opt,
}

impl Variant {
    ghost use Rattle.mm_digest.specs.Messages.{variant_byte};

    /// The byte that names the variant in messages, cells and snapshots: 1 or 2.
    pub fn byte(self) -> u8
        ensures { result ≡ variant_byte self }
    {
        match self {
            Variant::Basic => 1,
            Variant::Opt => 2,
        }
    }

    /// The variant of this byte. None exactly where the byte is neither 1 nor 2.
    pub fn of_byte(byte: u8) -> Option<Variant>
        ensures { MatchOption result ((v : Variant) → variant_byte v ≢ byte)
            (λ v. variant_byte v ≡ byte) }
    {
        match byte {
            1 => Some(Variant::Basic),
            2 => Some(Variant::Opt),
            _ => None,
        }
    }
}
