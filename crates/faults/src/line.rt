ghost use Rattle.std.specs.Prelude.{◌≡◌, Some};
ghost use Rattle.faults.specs.Faults.{line_told};
ghost use Rattle.faults.specs.Words.{line_sentence};
ghost use Rattle.faults.specs.declared.line.LineFault.TheVariants.{InSection};

use crate::layer::Layer;
use crate::place::ByteNumber;
use crate::section::SectionFault;
use std::fmt;

// What can be wrong with a call of a receiver, which takes bytes from a line
// and finds frames among them; and, whole, a fault of the layers below.
#[derive(Clone, Copy, PartialEq, Eq, Debug)]
pub enum LineFault {
    // a fault of what a frame's sections hold, or of the frame
    InSection(SectionFault),
    // the receiver has ended, so it takes no more bytes
    Ended,
    // the receiver has found no frame
    NoFrame,
}

impl LineFault {
    // The number of the question that was answered by no.
    pub fn number(&self) -> u8
        ensures { result ≡ (line_told self.now).number }
    {
        match self {
            LineFault::InSection(fault) => fault.number(),
            LineFault::Ended => 22,
            LineFault::NoFrame => 23,
        }
    }

    pub fn layer(&self) -> Layer
        ensures { result ≡ (line_told self.now).layer }
    {
        match self {
            LineFault::InSection(fault) => fault.layer(),
            LineFault::Ended | LineFault::NoFrame => Layer::Line,
        }
    }

    // The byte at fault, or none.
    pub fn place(&self) -> ByteNumber
        ensures { result ≡ (line_told self.now).place }
    {
        match self {
            LineFault::InSection(fault) => fault.place(),
            LineFault::Ended | LineFault::NoFrame => ByteNumber::NONE,
        }
    }

    // The fault in plain words.
    fn sentence(&self) -> &'static str
        ensures { result.now ≡ line_sentence self.now }
    {
        match self {
            LineFault::InSection(fault) => fault.sentence(),
            LineFault::Ended => "the receiver has ended and takes no more bytes",
            LineFault::NoFrame => "the receiver has found no frame",
        }
    }
}

// A fault of a section goes up whole.
impl From<SectionFault> for LineFault {
    ghost from_gives = { λ f r. r ≡ InSection f };

    fn from(below: SectionFault) -> LineFault {
        LineFault::InSection(below)
    }
}

// The fault in a sentence.
impl fmt::Display for LineFault {
    ghost output = { λ f. Some (line_sentence f) };

    fn fmt<W: fmt::Write>(&self, f: &mut fmt::Formatter<W>) -> fmt::Result {
        f.write_str(self.sentence())
    }
}
