// Whether bytes are an ensemble, with no word of what is wrong with others: the
// questions are asked in the order that costs least, and the sections are gone
// through once.
ghost use Rattle.std.specs.Prelude.{◌≡◌, Ok, Decides, MatchOption};
ghost use Rattle.faults.specs.Questions.{answered, first_fault};
ghost use Rattle.pd0.specs.Layout.{cells_of};
ghost use Rattle.pd0.specs.Questions.{head_questions, header_of};
ghost use Rattle.pd0.specs.Verdicts.{whole};
ghost use Rattle.pd0.specs.Whole.{Led, Sectioned};

use crate::claim::Claim;
use crate::header::{HEADER_SIZE, Header};
use crate::kind::{FIXED_LEADER, KINDS, Kind, LEADER_SIZE, VARIABLE_LEADER};
use crate::sections::{CELLS, MOST_CELLS};
use crate::stored::word_inside;

impl Claim<'_> {
    // The number of cells, if the leaders come first and it is in range.
    fn leading_cells(&self) -> Option<u8>
        ensures { MatchOption result (Sectioned self.now.bytes.now self.now.count self.now.size → ⊥) (λ c. (c ≡ cells_of self.now.bytes.now) × Led self.now.bytes.now self.now.count self.now.size) }
    {
        let first = HEADER_SIZE + 2 * self.count;
        if usize::from(self.offset(0)) != first {
            return None;
        }
        let second = usize::from(self.offset(1));
        if second < first + LEADER_SIZE || second + 2 > self.size {
            return None;
        }
        let cells = self.bytes[first + usize::from(CELLS)];
        if !(1..=MOST_CELLS).contains(&cells) {
            return None;
        }
        let id = word_inside(self.bytes, first);
        let next = word_inside(self.bytes, second);
        if id != FIXED_LEADER || next != VARIABLE_LEADER {
            return None;
        }
        Some(cells)
    }

    // Whether each section behind the Fixed Leader has its least size before the
    // next one begins, the last one before the reserved bytes, and no named kind
    // stands twice.
    fn has_room(&self, cells: u8) -> bool
        requires { Led self.now.bytes.now self.now.count self.now.size × (cells ≡ cells_of self.now.bytes.now) }
        ensures { Decides result (Sectioned self.now.bytes.now self.now.count self.now.size) }
    {
        let last = self.size - 2;
        // the named kinds that were met, at first that of the Fixed Leader; a loop,
        // since a chain would have to hand all of them on from section to section,
        // and an array, since a set would need a heap
        let mut met = [false; KINDS];
        met[Kind::FixedLeader.number()] = true;
        for k in 1..self.count {
            let start = usize::from(self.offset(k));
            let kind = Kind::from(word_inside(self.bytes, start));
            let end = self.end(k);
            if end > last || end < start + kind.least_size(cells) {
                return false;
            }
            let number = kind.number();
            if met[number] {
                return false;
            }
            met[number] = kind.is_named();
        }
        true
    }

    // Whether the sections are as an ensemble has them.
    fn has_sections(&self) -> bool
        ensures { Decides result (Sectioned self.now.bytes.now self.now.count self.now.size) }
    {
        // a match: is_some_and was tried, but what has_room ensures is no equation,
        // and of a closure around it nothing else is known
        match self.leading_cells() {
            Some(cells) => self.has_room(cells),
            None => false,
        }
    }

    // Whether the bytes are an ensemble. The checksum comes last, since it reads
    // every byte.
    fn is_ensemble(&self) -> bool
        ensures { result ≡ whole self.now.bytes.now }
    {
        self.has_sections() && self.is_sealed()
    }
}

// Whether bytes with this header are an ensemble, no more and no fewer.
#[tactic(auto, using(crate::proofs::Wholes::wrong_length))]
pub(crate) fn is_whole(bytes: &[u8], header: Header) -> bool
    requires { Ok header ≡ answered (first_fault (head_questions bytes.now)) (header_of bytes.now) }
    ensures { result ≡ whole bytes.now }
{
    Claim::new(bytes, header).is_some_and(|claim| claim.is_ensemble())
}
