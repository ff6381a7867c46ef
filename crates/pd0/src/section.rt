ghost use Rattle.std.specs.Prelude.{◌≡◌};
ghost use Rattle.pd0.specs.Sections.{section_kind, section_bytes};

use crate::kind::Kind;

// A section of an ensemble by its kind, with its own bytes, the identification
// among them. Each kind is a case that holds its part, by the project's rule, and
// no pair of a kind and bytes.
#[derive(Clone, Copy)]
pub enum Section<'a> {
    FixedLeader(&'a [u8]),
    VariableLeader(&'a [u8]),
    Velocity(&'a [u8]),
    Correlation(&'a [u8]),
    Echo(&'a [u8]),
    PercentGood(&'a [u8]),
    Status(&'a [u8]),
    BottomTrack(&'a [u8]),
    Unnamed(&'a [u8]),
}

impl<'a> Section<'a> {
    // The section of these bytes, where they are of this kind.
    pub(crate) fn of(kind: Kind, bytes: &'a [u8]) -> Section<'a>
        ensures kind { section_kind result ≡ kind }
        ensures bytes { section_bytes result ≡ bytes.now }
    {
        match kind {
            Kind::FixedLeader => Section::FixedLeader(bytes),
            Kind::VariableLeader => Section::VariableLeader(bytes),
            Kind::Velocity => Section::Velocity(bytes),
            Kind::Correlation => Section::Correlation(bytes),
            Kind::Echo => Section::Echo(bytes),
            Kind::PercentGood => Section::PercentGood(bytes),
            Kind::Status => Section::Status(bytes),
            Kind::BottomTrack => Section::BottomTrack(bytes),
            Kind::Unnamed => Section::Unnamed(bytes),
        }
    }

    // The kind alone.
    pub fn kind(self) -> Kind
        ensures { result ≡ section_kind self.entry }
    {
        match self {
            Section::FixedLeader(_) => Kind::FixedLeader,
            Section::VariableLeader(_) => Kind::VariableLeader,
            Section::Velocity(_) => Kind::Velocity,
            Section::Correlation(_) => Kind::Correlation,
            Section::Echo(_) => Kind::Echo,
            Section::PercentGood(_) => Kind::PercentGood,
            Section::Status(_) => Kind::Status,
            Section::BottomTrack(_) => Kind::BottomTrack,
            Section::Unnamed(_) => Kind::Unnamed,
        }
    }

    // The bytes alone.
    pub fn bytes(self) -> &'a [u8]
        ensures { result.now ≡ section_bytes self.entry }
    {
        match self {
            Section::FixedLeader(bytes)
            | Section::VariableLeader(bytes)
            | Section::Velocity(bytes)
            | Section::Correlation(bytes)
            | Section::Echo(bytes)
            | Section::PercentGood(bytes)
            | Section::Status(bytes)
            | Section::BottomTrack(bytes)
            | Section::Unnamed(bytes) => bytes,
        }
    }
}
