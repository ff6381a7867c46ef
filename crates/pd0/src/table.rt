ghost use Rattle.std.specs.Prelude.{◌≡◌, ◌+◌, ◌<◌, ◌≤◌};
ghost use Rattle.faults.specs.Least.{least, Found};
ghost use Rattle.pd0.specs.Layout.{offset, ident, ending, section_size};
ghost use Rattle.pd0.specs.Questions.{wrong_offset};
ghost use Rattle.pd0.specs.Table.{Tabled};

use crate::claim::Claim;
use crate::header::HEADER_SIZE;
use crate::stored::word_inside;
use faults::place::Offset;

impl Claim<'_> {
    // Whether offset `k` breaks the table.
    fn is_wrong_offset(&self, k: usize) -> bool
        requires { k < self.now.count }
        ensures { result ≡ wrong_offset self.now.bytes.now self.now.count self.now.size k }
    {
        let here = usize::from(self.offset(k));
        if k + 1 == self.count && self.size < here + 4 {
            return true;
        }
        if k == 0 {
            here != HEADER_SIZE + 2 * self.count
        } else {
            here < usize::from(self.offset(k - 1)) + 2
        }
    }

    // The first offset that breaks the table, by its number from 0. That this is
    // below the count follows, but callers' proofs are found only where it is said.
    pub(crate) fn wrong_offset(&self) -> Option<usize>
        ensures value { result ≡ least (wrong_offset self.now.bytes.now self.now.count self.now.size) self.now.count }
        ensures bound { Found result (λ k. k < self.now.count) }
    {
        (0..self.count).find(|k| self.is_wrong_offset(*k))
    }
}

// Such bytes, of which every offset is right too. That a section's number is below
// the count is asked at each call: a type for such numbers would have to name the
// table that it counts in.
#[derive(Clone, Copy)]
pub(crate) struct Table<'a> {
    pub claim: Claim<'a>,
    ghost tabled: { Tabled claim.bytes.now claim.count claim.size },
}

impl Table<'_> {
    // Where section `k`, counted from 0, begins.
    pub(crate) fn start(&self, k: usize) -> Offset
        requires { k < self.now.claim.count }
        ensures value { result.0 ≡ offset self.now.claim.bytes.now k }
        ensures bound { result.0 + 4 ≤ self.now.claim.size }
    {
        self.claim.offset(k)
    }

    // Where section `k` ends.
    pub(crate) fn end(&self, k: usize) -> usize
        requires { k < self.now.claim.count }
        ensures value { result ≡ ending self.now.claim.bytes.now self.now.claim.count self.now.claim.size k }
        ensures bound { (offset self.now.claim.bytes.now k + 2 ≤ result) × (result + 2 ≤ self.now.claim.size) }
    {
        self.claim.end(k)
    }

    // The identification of section `k`.
    pub(crate) fn identification(&self, k: usize) -> u16
        requires { k < self.now.claim.count }
        ensures { result ≡ ident self.now.claim.bytes.now k }
    {
        word_inside(self.claim.bytes, usize::from(self.start(k)))
    }

    // The size of section `k`.
    pub(crate) fn section_size(&self, k: usize) -> usize
        requires { k < self.now.claim.count }
        ensures value { result ≡ section_size self.now.claim.bytes.now self.now.claim.count self.now.claim.size k }
        ensures bound { offset self.now.claim.bytes.now k + result + 2 ≤ self.now.claim.size }
    {
        self.end(k) - usize::from(self.start(k))
    }
}
