ghost use Rattle.std.specs.Prelude.{◌≡◌, Some};
ghost use Rattle.faults.specs.Faults.{section_told};
ghost use Rattle.faults.specs.Words.{section_sentence};
ghost use Rattle.faults.specs.declared.section.SectionFault.TheVariants.{InFrame};

use crate::frame::FrameFault;
use crate::layer::Layer;
use crate::place::ByteNumber;
use std::fmt;

// What can be wrong with what a frame's sections hold, or with a buffer or a
// value that goes with them; and, whole, a fault of the frame below.
#[derive(Clone, Copy, PartialEq, Eq, Debug)]
pub enum SectionFault {
    // a fault of the layer below
    InFrame(FrameFault),
    // the Fixed Leader is too short, or the number of cells is out of range
    Leader(ByteNumber),
    // a section is shorter than its kind's least size
    TooShort(ByteNumber),
    // no section of the kind that was asked for
    Absent,
    // a row or a buffer has too few places
    Space,
    // the clock shows no real date and time
    Clock,
    // no field starts at that byte, or it is not there whole
    Field,
    // the value does not fit the field
    Value,
}

impl SectionFault {
    // The number of the question that was answered by no.
    pub fn number(&self) -> u8
        ensures { result ≡ (section_told self.now).number }
    {
        match self {
            SectionFault::InFrame(fault) => fault.number(),
            SectionFault::Leader(_) => 9,
            SectionFault::TooShort(_) => 10,
            SectionFault::Absent => 11,
            SectionFault::Space => 12,
            SectionFault::Clock => 14,
            SectionFault::Field => 20,
            SectionFault::Value => 21,
        }
    }

    pub fn layer(&self) -> Layer
        ensures { result ≡ (section_told self.now).layer }
    {
        match self {
            SectionFault::InFrame(fault) => fault.layer(),
            SectionFault::Leader(_)
            | SectionFault::TooShort(_)
            | SectionFault::Absent
            | SectionFault::Space
            | SectionFault::Clock
            | SectionFault::Field
            | SectionFault::Value => Layer::Section,
        }
    }

    // The byte at fault, or none.
    pub fn place(&self) -> ByteNumber
        ensures { result ≡ (section_told self.now).place }
    {
        match self {
            SectionFault::InFrame(fault) => fault.place(),
            SectionFault::Leader(at) | SectionFault::TooShort(at) => *at,
            SectionFault::Absent
            | SectionFault::Space
            | SectionFault::Clock
            | SectionFault::Field
            | SectionFault::Value => ByteNumber::NONE,
        }
    }

    // The fault in plain words.
    pub(crate) fn sentence(&self) -> &'static str
        ensures { result.now ≡ section_sentence self.now }
    {
        match self {
            SectionFault::InFrame(fault) => fault.sentence(),
            SectionFault::Leader(_) =>
                "the Fixed Leader is too short, or its number of cells is out of range",
            SectionFault::TooShort(_) => "this section has fewer bytes than its kind needs",
            SectionFault::Absent => "there is no section of this kind",
            SectionFault::Space => "there is too little space",
            SectionFault::Clock => "the clock shows no real date and time",
            SectionFault::Field =>
                "no field of this section starts at this byte and lies in it whole",
            SectionFault::Value => "the value does not fit the field",
        }
    }
}

// A fault of the frame goes up whole.
impl From<FrameFault> for SectionFault {
    ghost from_gives = { λ f r. r ≡ InFrame f };

    fn from(below: FrameFault) -> SectionFault {
        SectionFault::InFrame(below)
    }
}

// The fault in a sentence.
impl fmt::Display for SectionFault {
    ghost output = { λ f. Some (section_sentence f) };

    fn fmt<W: fmt::Write>(&self, f: &mut fmt::Formatter<W>) -> fmt::Result {
        f.write_str(self.sentence())
    }
}
