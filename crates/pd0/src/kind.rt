ghost use Rattle.std.specs.Prelude.{◌≡◌, Some};
ghost use Rattle.pd0.specs.Kinds.{kind_of, kind_name, kind_number, least_size, is_named};

use std::fmt;

// The identifications of the two sections that must come first.
pub(crate) const FIXED_LEADER: u16 = 0x0000;

pub(crate) const VARIABLE_LEADER: u16 = 0x0080;

// The fewest bytes of a Fixed Leader.
pub(crate) const LEADER_SIZE: usize = 52;

// How many kinds there are.
pub(crate) const KINDS: usize = 9;

// What a section is, by its identification.
#[derive(Clone, Copy, PartialEq, Eq, Debug)]
pub enum Kind {
    FixedLeader,
    VariableLeader,
    Velocity,
    Correlation,
    Echo,
    PercentGood,
    Status,
    BottomTrack,
    // an identification that the format gives no name
    Unnamed,
}

impl From<u16> for Kind {
    ghost from_gives = { λ identification kind. kind ≡ kind_of identification };

    // The kind with this identification, read as a number, low byte first.
    fn from(identification: u16) -> Kind {
        match identification {
            FIXED_LEADER => Kind::FixedLeader,
            VARIABLE_LEADER => Kind::VariableLeader,
            0x0100 => Kind::Velocity,
            0x0200 => Kind::Correlation,
            0x0300 => Kind::Echo,
            0x0400 => Kind::PercentGood,
            0x0500 => Kind::Status,
            0x0600 => Kind::BottomTrack,
            _ => Kind::Unnamed,
        }
    }
}

impl Kind {
    // The fewest bytes of a section of this kind, with this many cells.
    pub(crate) fn least_size(self, cells: u8) -> usize
        ensures { result ≡ least_size self cells }
    {
        match self {
            Kind::FixedLeader => LEADER_SIZE,
            Kind::VariableLeader => 65,
            Kind::Velocity => 2 + 8 * cells as usize,
            Kind::Correlation | Kind::Echo | Kind::PercentGood | Kind::Status => 2
                + 4 * cells as usize,
            Kind::BottomTrack => 81,
            Kind::Unnamed => 2,
        }
    }

    pub(crate) fn is_named(self) -> bool
        ensures { result ≡ is_named self }
    {
        !matches!(self, Kind::Unnamed)
    }

    // A number for each kind, below `KINDS`.
    pub(crate) fn number(self) -> usize
        ensures { result ≡ kind_number self }
    {
        self as usize
    }

    // The kind's name in the tables of the format.
    fn name(self) -> &'static str
        ensures { result.now ≡ kind_name self }
    {
        match self {
            Kind::FixedLeader => "Fixed Leader",
            Kind::VariableLeader => "Variable Leader",
            Kind::Velocity => "Velocity",
            Kind::Correlation => "Correlation",
            Kind::Echo => "Echo",
            Kind::PercentGood => "Percent-Good",
            Kind::Status => "Status",
            Kind::BottomTrack => "Bottom Track",
            Kind::Unnamed => "unnamed",
        }
    }
}

impl fmt::Display for Kind {
    ghost output = { λ k. Some (kind_name k) };

    fn fmt<W: fmt::Write>(&self, f: &mut fmt::Formatter<W>) -> fmt::Result {
        f.write_str(self.name())
    }
}
