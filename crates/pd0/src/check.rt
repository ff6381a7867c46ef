ghost use Rattle.std.specs.Prelude.{◌≡◌, IfOk};
ghost use Rattle.std.specs.Result.{result_err};
ghost use Rattle.faults.specs.Questions.{answered, first_fault};
ghost use Rattle.pd0.specs.Ensembles.{OpeningLaws};
ghost use Rattle.pd0.specs.Questions.{header_of, to_table, frame_questions, questions};

use crate::claim::Claim;
use crate::header::{Header, entry, read_header};
use crate::kind::LEADER_SIZE;
use crate::sections::{CELLS, MOST_CELLS};
use crate::table::Table;
use crate::whole::is_whole;
use faults::frame::FrameFault;
use faults::place::Offset;
use faults::section::SectionFault;

// Asks up to the table of offsets.
#[tactic(auto, using(crate::specs::Tables::tabled_from))]
fn check_table(bytes: &[u8]) -> Result<Table, FrameFault>
    ensures value { result_err result ≡ first_fault (to_table bytes.now) }
    ensures same { IfOk result (λ t. t.claim.bytes.now ≡ bytes.now) }
{
    let header = read_header(bytes)?;
    let claim = Claim::new(bytes, header).ok_or(FrameFault::Length)?;
    if !claim.is_sealed() {
        return Err(FrameFault::Checksum(Offset(claim.size as u16).into()));
    }
    match claim.wrong_offset() {
        Some(k) => Err(FrameFault::OffsetTable(entry(k).into())),
        None => Ok(Table { claim }),
    }
}

// Asks every question of the frame.
fn check_frame(bytes: &[u8]) -> Result<Table, FrameFault>
    ensures value { result_err result ≡ first_fault (frame_questions bytes.now) }
    ensures same { IfOk result (λ t. t.claim.bytes.now ≡ bytes.now) }
{
    let table = check_table(bytes)?;
    match table.wrong_order() {
        Some(k) => Err(FrameFault::SectionOrder(table.start(k).into())),
        None => Ok(table),
    }
}

// Asks every question of an ensemble, in their order.
#[tactic(auto, using(crate::proofs::Layers::frame_refused), unfolding(crate::specs::Questions::questions))]
fn ask_in_order(bytes: &[u8]) -> Result<Header, SectionFault>
    ensures { result ≡ answered (first_fault (questions bytes.now)) (header_of bytes.now) }
{
    let table = check_frame(bytes)?;
    let leader = table.start(0);
    if table.section_size(0) < LEADER_SIZE {
        return Err(SectionFault::Leader(leader.into()));
    }
    let cells = bytes[usize::from(leader) + usize::from(CELLS)];
    if !(1..=MOST_CELLS).contains(&cells) {
        return Err(SectionFault::Leader(leader.into()));
    }
    if let Some(k) = table.wrong_size(cells) {
        return Err(SectionFault::TooShort(table.start(k).into()));
    }
    let Claim { count, size, .. } = table.claim;
    Ok(Header { count, size })
}

// Asks every question of an ensemble. Most bytes that are opened are one, which
// is told in less time without the order; only others are asked in order, for
// the first question that is answered by no.
pub(crate) fn check(bytes: &[u8]) -> Result<Header, SectionFault>
    ensures value { result ≡ answered (first_fault (questions bytes.now)) (header_of bytes.now) }
    ensures laws { OpeningLaws bytes.now }
{
    match read_header(bytes) {
        Ok(header) if is_whole(bytes, header) => Ok(header),
        _ => ask_in_order(bytes),
    }
}
