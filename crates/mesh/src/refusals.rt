// Why a call is refused, and the numbers by which C is told.
ghost use Rattle.std.specs.Prelude.{◌≡◌};
ghost use Rattle.mesh.specs.Refused.{number_of};

#[derive(Clone, Copy, Debug, PartialEq, Eq)]
pub enum Refusal {
    // Too many particles, triangles, edges or boundary entries, or blocks whose lengths do not fit each other.
    Size,
    // A number that is too large or not finite, or a flag that is neither 0 nor 1.
    Number,
    // Something names a particle that is not there, or one twice.
    Name,
    // A bad argument.
    Argument,
    // No room for particles.
    Particles,
    // No room for edges.
    Edges,
    // No room for boundary entries.
    Boundary,
    // No room for entries of the log.
    Entries,
    // The bytes are no whole sheet.
    Sheet,
    // The reader of a sheet is closed.
    Closed,
    // Edition 2: a coordinate that is not whole.
    Whole,
    // Edition 2: a mesh of straps.
    Straps,
}

impl Refusal {
    // The number of a refusal (docs/RULES.md, R3).
    pub fn number(self) -> usize
        ensures { result ≡ number_of self }
    {
        match self {
            Refusal::Size => 1,
            Refusal::Number => 2,
            Refusal::Name => 3,
            Refusal::Argument => 4,
            Refusal::Particles => 5,
            Refusal::Edges => 6,
            Refusal::Boundary => 7,
            Refusal::Entries => 8,
            Refusal::Sheet => 9,
            Refusal::Closed => 10,
            Refusal::Whole => 11,
            Refusal::Straps => 12,
        }
    }
}
