ghost use Rattle.std.specs.Prelude.{◌≡◌, ◌<◌, is_some};
ghost use Rattle.faults.specs.Least.{least, Found};
ghost use Rattle.pd0.specs.Layout.{cells_of};
ghost use Rattle.pd0.specs.Questions.{has_ident, wrong_order, wrong_size};

use crate::kind::{FIXED_LEADER, Kind, VARIABLE_LEADER};
use crate::table::Table;
use faults::place::Offset;

// Where the number of cells stands in the Fixed Leader.
pub(crate) const CELLS: Offset = Offset(9);

// The most cells.
pub(crate) const MOST_CELLS: u8 = 128;

impl Table<'_> {
    // Whether a section before `k` has this identification.
    fn is_repeated(&self, k: usize, id: u16) -> bool
        requires { k < self.now.claim.count }
        ensures { result ≡ is_some (least (has_ident self.now.claim.bytes.now id) k) }
    {
        (0..k).any(|j| self.identification(j) == id)
    }

    // Whether section `k` has a kind that cannot stand there.
    fn is_wrong_order(&self, k: usize) -> bool
        requires { k < self.now.claim.count }
        ensures { result ≡ wrong_order self.now.claim.bytes.now k }
    {
        let id = self.identification(k);
        match k {
            0 => id != FIXED_LEADER,
            1 => id != VARIABLE_LEADER,
            _ => Kind::from(id).is_named() && self.is_repeated(k, id),
        }
    }

    // The first section whose kind cannot stand there, by its number from 0; below
    // the count, which is said for callers' proofs.
    pub(crate) fn wrong_order(&self) -> Option<usize>
        ensures value { result ≡ least (wrong_order self.now.claim.bytes.now) self.now.claim.count }
        ensures bound { Found result (λ k. k < self.now.claim.count) }
    {
        (0..self.claim.count).find(|k| self.is_wrong_order(*k))
    }

    // Whether section `k` is shorter than its kind's least size.
    fn is_wrong_size(&self, k: usize, cells: u8) -> bool
        requires { (k < self.now.claim.count) × (cells ≡ cells_of self.now.claim.bytes.now) }
        ensures { result ≡ wrong_size self.now.claim.bytes.now self.now.claim.count self.now.claim.size k }
    {
        self.section_size(k) < Kind::from(self.identification(k)).least_size(cells)
    }

    // The first section that is shorter than its kind's least size; below the
    // count, which is said for callers' proofs. The number of cells is handed on,
    // here and in the walk, since it is read once, where it is known to be there.
    pub(crate) fn wrong_size(&self, cells: u8) -> Option<usize>
        requires { cells ≡ cells_of self.now.claim.bytes.now }
        ensures value { result ≡ least (wrong_size self.now.claim.bytes.now self.now.claim.count self.now.claim.size) self.now.claim.count }
        ensures bound { Found result (λ k. k < self.now.claim.count) }
    {
        (0..self.claim.count).find(|k| self.is_wrong_size(*k, cells))
    }
}
