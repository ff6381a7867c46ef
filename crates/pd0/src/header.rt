ghost use Rattle.std.specs.Prelude.{◌≡◌, ◌+◌, ◌<◌, ◌≤◌, length, IfOk};
ghost use Rattle.faults.specs.Questions.{answered, first_fault};
ghost use Rattle.pd0.specs.Layout.{table_end};
ghost use Rattle.pd0.specs.Questions.{head_questions, header_of, most_counted, most_sections};

use crate::stored::word_inside;
use faults::frame::FrameFault;
use faults::place::Offset;

// The bytes before the table of offsets.
pub(crate) const HEADER_SIZE: usize = 6;

// The first two bytes of every ensemble.
const MARK: u8 = 0x7f;

// Where the number of counted bytes, the spare byte, the number of sections
// and the table of offsets stand.
pub(crate) const SIZE: Offset = Offset(2);

pub(crate) const SPARE: Offset = Offset(4);

const SECTION_COUNT: Offset = Offset(5);

pub(crate) const TABLE: Offset = Offset(HEADER_SIZE as u16);

// The most sections, and the most bytes before the checksum.
const MOST_SECTIONS: usize = 16;

pub(crate) const MOST_COUNTED: usize = 4094;

// What the header says: the number of sections, and of the bytes before the
// checksum. Their range is a clause of `read_header` and no fact of the type,
// since the questions speak of the header of any bytes.
#[derive(Clone, Copy)]
pub(crate) struct Header {
    pub count: usize,
    pub size: usize,
}

// Reads the header, where its own questions are answered by yes.
pub(crate) fn read_header(bytes: &[u8]) -> Result<Header, FrameFault>
    ensures value { result ≡ answered (first_fault (head_questions bytes.now)) (header_of bytes.now) }
    ensures range { IfOk result (λ h. (2 ≤ h.count) × (h.count ≤ most_sections) × (table_end h.count + 2 ≤ h.size) × (h.size ≤ most_counted)) }
{
    if bytes.len() < HEADER_SIZE {
        return Err(FrameFault::NoHeader);
    }
    if bytes[0] != MARK {
        return Err(FrameFault::Mark(Offset(0).into()));
    }
    if bytes[1] != MARK {
        return Err(FrameFault::Mark(Offset(1).into()));
    }
    // two comparisons, since `contains` of a range took a quarter more time on noise
    let count = bytes[usize::from(SECTION_COUNT)] as usize;
    if count < 2 || count > MOST_SECTIONS {
        return Err(FrameFault::SectionCount(SECTION_COUNT.into()));
    }
    let size = word_inside(bytes, usize::from(SIZE)) as usize;
    if size < HEADER_SIZE + 2 * count + 2 || size > MOST_COUNTED {
        return Err(FrameFault::Size(SIZE.into()));
    }
    Ok(Header { count, size })
}

// Where entry `k` of the table of offsets stands.
pub(crate) fn entry(k: usize) -> Offset
    requires { k < most_sections }
    ensures { result.0 ≡ table_end k }
{
    Offset(TABLE.0 + 2 * k as u16)
}
