ghost use Rattle.std.specs.Prelude.{◌≡◌, ◌+◌, ◌<◌, length, take, ◌==◌, MatchOption, ◌≢◌, Ok};
ghost use Rattle.faults.specs.Questions.{answered, first_fault};
ghost use Rattle.framing.specs.Stored.{word, checksum_from};
ghost use Rattle.pd0.specs.Layout.{offset, ending};
ghost use Rattle.pd0.specs.Questions.{head_questions, header_of};
ghost use Rattle.pd0.specs.Whole.{Headed};

use crate::header::{HEADER_SIZE, Header};
use crate::stored::{checksum, word_inside};
use faults::place::Offset;

// Bytes that claim to be an ensemble: they have a right header, and are as many as
// it tells. Whether they are one is still to be asked.
#[derive(Clone, Copy)]
pub(crate) struct Claim<'a> {
    pub bytes: &'a [u8],
    pub count: usize,
    pub size: usize,
    ghost headed: { Headed bytes.now count size },
}

impl<'a> Claim<'a> {
    // The bytes with the header that was read from them, if they are as many as it
    // tells. The two travel together to here, where they become one.
    pub(crate) fn new(bytes: &'a [u8], header: Header) -> Option<Claim<'a>>
        requires { Ok header ≡ answered (first_fault (head_questions bytes.now)) (header_of bytes.now) }
        ensures { MatchOption result (length bytes.now ≢ header.size + 2) (λ f. (f.bytes.now ≡ bytes.now) × (f.count ≡ header.count) × (f.size ≡ header.size)) }
    {
        let Header { count, size } = header;
        if bytes.len() != size + 2 {
            return None;
        }
        Some(Claim { bytes, count, size })
    }

    // Where section `k`, counted from 0, begins.
    pub(crate) fn offset(&self, k: usize) -> Offset
        requires { k < self.now.count }
        ensures { result.0 ≡ offset self.now.bytes.now k }
    {
        Offset(word_inside(self.bytes, HEADER_SIZE + 2 * k))
    }

    // Where section `k` ends: where the next one begins, or the reserved bytes.
    pub(crate) fn end(&self, k: usize) -> usize
        requires { k < self.now.count }
        ensures { result ≡ ending self.now.bytes.now self.now.count self.now.size k }
    {
        if k + 1 == self.count {
            self.size - 2
        } else {
            usize::from(self.offset(k + 1))
        }
    }

    // Whether the checksum is that of the counted bytes. By `checksum`, so that
    // what opening and judging ask for is just what that call tells.
    pub(crate) fn is_sealed(&self) -> bool
        ensures { result ≡ (checksum_from 0 (take self.now.size self.now.bytes.now) == word self.now.bytes.now self.now.size) }
    {
        checksum(&self.bytes[..self.size]) == word_inside(self.bytes, self.size)
    }
}
