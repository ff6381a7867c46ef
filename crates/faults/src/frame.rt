ghost use Rattle.std.specs.Prelude.{◌≡◌, Some};
ghost use Rattle.faults.specs.Faults.{frame_told};
ghost use Rattle.faults.specs.Words.{frame_sentence};

use crate::layer::Layer;
use crate::place::{ByteNumber, Offset};
use std::fmt;

// What can be wrong with the bytes of a frame. Up to `SectionOrder` the cases
// stand in the order in which opening a PD0 ensemble asks.
#[derive(Clone, Copy, PartialEq, Eq, Debug)]
pub enum FrameFault {
    // fewer bytes than a PD0 header's fixed part
    NoHeader,
    // one of the first two bytes is not 7F: the first that is not
    Mark(ByteNumber),
    // the number of sections is out of range
    SectionCount(ByteNumber),
    // the number of counted bytes is out of range
    Size(ByteNumber),
    // the bytes present are not as many as the header says
    Length,
    // the checksum does not agree with the bytes before it
    Checksum(ByteNumber),
    // an offset is not where the first section, or a next one, can begin
    OffsetTable(ByteNumber),
    // a section has the wrong kind for its place
    SectionOrder(ByteNumber),
    // an entry for the writer lies outside the body
    EntryOutside,
    // fewer bytes than the head of an Aquadopp structure
    NoStructure,
    // an Aquadopp structure's first byte is not A5
    Sync,
    // an Aquadopp structure's id and size do not belong together
    StructureSize,
    // the bytes present are not as many as the structure's size
    StructureLength,
    // an Aquadopp structure's checksum does not agree
    StructureChecksum,
}

impl FrameFault {
    // The number of the question that was answered by no.
    pub fn number(&self) -> u8
        ensures { result ≡ (frame_told self.now).number }
    {
        match self {
            FrameFault::NoHeader => 1,
            FrameFault::Mark(_) => 2,
            FrameFault::SectionCount(_) => 3,
            FrameFault::Size(_) => 4,
            FrameFault::Length => 5,
            FrameFault::Checksum(_) => 6,
            FrameFault::OffsetTable(_) => 7,
            FrameFault::SectionOrder(_) => 8,
            FrameFault::EntryOutside => 13,
            FrameFault::NoStructure => 15,
            FrameFault::Sync => 16,
            FrameFault::StructureSize => 17,
            FrameFault::StructureLength => 18,
            FrameFault::StructureChecksum => 19,
        }
    }

    pub fn layer(&self) -> Layer
        ensures { result ≡ (frame_told self.now).layer }
    {
        Layer::Frame
    }

    // The byte at fault, or none.
    pub fn place(&self) -> ByteNumber
        ensures { result ≡ (frame_told self.now).place }
    {
        match self {
            FrameFault::Mark(at)
            | FrameFault::SectionCount(at)
            | FrameFault::Size(at)
            | FrameFault::Checksum(at)
            | FrameFault::OffsetTable(at)
            | FrameFault::SectionOrder(at) => *at,
            FrameFault::Length => Offset(2).into(),
            FrameFault::NoHeader
            | FrameFault::EntryOutside
            | FrameFault::NoStructure
            | FrameFault::Sync
            | FrameFault::StructureSize
            | FrameFault::StructureLength
            | FrameFault::StructureChecksum => ByteNumber::NONE,
        }
    }

    // The fault in plain words.
    pub(crate) fn sentence(&self) -> &'static str
        ensures { result.now ≡ frame_sentence self.now }
    {
        match self {
            FrameFault::NoHeader => "there are too few bytes for a PD0 header",
            FrameFault::Mark(_) =>
                "a PD0 ensemble begins with two bytes 7F, and this byte is another",
            FrameFault::SectionCount(_) => "the number of sections is out of range",
            FrameFault::Size(_) => "the number of counted bytes is out of range",
            FrameFault::Length => "there are fewer or more bytes than the header says",
            FrameFault::Checksum(_) => "the checksum does not agree with the bytes before it",
            FrameFault::OffsetTable(_) => "this offset is not where a section can begin",
            FrameFault::SectionOrder(_) => "this section is not of a kind that can stand here",
            FrameFault::EntryOutside => "an entry does not lie inside the body",
            FrameFault::NoStructure =>
                "there are too few bytes for the head of an Aquadopp structure",
            FrameFault::Sync => "an Aquadopp structure begins with A5, and this is another byte",
            FrameFault::StructureSize => "no Aquadopp structure has this id and this size",
            FrameFault::StructureLength => "there are fewer or more bytes than the structure says",
            FrameFault::StructureChecksum =>
                "the structure's checksum does not agree with the bytes before it",
        }
    }
}

// The fault in a sentence.
impl fmt::Display for FrameFault {
    ghost output = { λ f. Some (frame_sentence f) };

    fn fmt<W: fmt::Write>(&self, f: &mut fmt::Formatter<W>) -> fmt::Result {
        f.write_str(self.sentence())
    }
}
