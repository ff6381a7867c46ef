ghost use Rattle.std.specs.Prelude.{◌≡◌, ◌<◌};
ghost use Rattle.pd0.specs.Held.{held};
ghost use Rattle.pd0.specs.Layout.{count_of, size_of, spare_of, cells_of, reserved_of};
ghost use Rattle.pd0.specs.Sections.{SectionAt, FirstByteAt};

use crate::claim::Claim;
use crate::ensemble::Ensemble;
use crate::header::{SIZE, SPARE, TABLE};
use crate::kind::Kind;
use crate::section::Section;
use crate::sections::CELLS;
use crate::stored::{byte, word};
use crate::table::Table;
use faults::place::ByteNumber;

// A new place has no bytes: what is read of it by `word` and `byte` is 0.
impl<'a> Ensemble<'a> {
    // The bytes that were opened, none in a new place.
    pub fn bytes(&self) -> &'a [u8]
        ensures { result.now ≡ held self.now }
    {
        self.bytes
    }

    // The number of sections, 0 in a new place.
    pub fn sections(&self) -> usize
        ensures { result ≡ count_of (held self.now) }
    {
        self.count
    }

    // The number of counted bytes, which are all before the checksum; 0 in a
    // new place.
    pub fn counted_bytes(&self) -> usize
        ensures { result ≡ size_of (held self.now) }
    {
        word(self.bytes, SIZE) as usize
    }

    // The number of cells, 0 in a new place.
    pub fn cells(&self) -> u8
        ensures { result ≡ cells_of (held self.now) }
    {
        let leader = word(self.bytes, TABLE) as usize;
        byte(self.bytes, leader + usize::from(CELLS))
    }

    // The spare byte of the header, 0 in a new place.
    pub fn spare(&self) -> u8
        ensures { result ≡ spare_of (held self.now) }
    {
        byte(self.bytes, usize::from(SPARE))
    }

    // The two reserved bytes before the checksum, 0 in a new place.
    pub fn reserved(&self) -> [u8; 2]
        ensures { result ≡ reserved_of (held self.now) }
    {
        let n = self.counted_bytes();
        // a new place has no counted bytes to step back from
        let first = n.saturating_sub(2);
        let second = n.saturating_sub(1);
        [byte(self.bytes, first), byte(self.bytes, second)]
    }

    // The table of offsets, where the place holds sections.
    fn table(&self) -> Table<'a>
        requires { 0 < self.now.count }
        ensures { (result.claim.bytes.now ≡ held self.now) × (result.claim.count ≡ self.now.count) × (result.claim.size ≡ size_of (held self.now)) }
    {
        let claim = Claim {
            bytes: self.bytes,
            count: self.count,
            // all but the checksum, which saves reading and testing the header
            size: self.bytes.len() - 2,
        };
        Table { claim }
    }

    // The section of a number from 1.
    pub fn section(&self, number: usize) -> Option<Section<'a>>
        ensures { SectionAt (held self.now) number result }
    {
        if !(1..=self.count).contains(&number) {
            return None;
        }
        let table = self.table();
        let k = number - 1;
        let kind = Kind::from(table.identification(k));
        let start = usize::from(table.start(k));
        Some(Section::of(kind, &self.bytes[start..table.end(k)]))
    }

    // The byte number where the section of a number from 1 begins.
    pub fn first_byte(&self, number: usize) -> Option<ByteNumber>
        ensures { FirstByteAt (held self.now) number result }
    {
        if !(1..=self.count).contains(&number) {
            return None;
        }
        Some(self.table().start(number - 1).into())
    }
}
