ghost use Rattle.std.specs.Prelude.{◌≡◌, ◌+◌, ◌*◌, ◌<◌, ◌≤◌, ◌++◌, [], length, take, drop, None, IfOk};
ghost use Rattle.pd0.specs.Ensembles.{IsEnsemble};
ghost use Rattle.pd0.specs.Layout.{offset};
ghost use Rattle.pd0.specs.Questions.{longest_size};
ghost use Rattle.pd0.specs.Verdicts.{judged_run};
ghost use Rattle.receiver.specs.Promise.{Promised};
ghost use Rattle.receiver.specs.Rule.{Follows, finds, StopsFirst};
ghost use Rattle.receiver.specs.View.{view};
ghost use Rattle.station.specs.Lines.{ensemble_number, column, line_text, most_digits, spaced, spaced_buffer};
ghost use Rattle.station.specs.Listed.{frame_lined, frame_buffer, IsLined, FoundEnsemble};

use faults::line::LineFault;
use faults::section::SectionFault;
use itoa::{Integer, write_digits};
use pd0::ensemble::Ensemble;
use pd0::judging::Pd0;
use receiver::answer::Finding;
use receiver::receiver::Receiver;

// Where the ensemble's number stands in the Variable Leader: its low 16 bits,
// and the 8 above them.
const NUMBER_LOW: usize = 2;

const NUMBER_HIGH: usize = 11;

// Where an ensemble has its number of sections and the second section's offset.
const SECTION_COUNT: usize = 5;

const SECOND_OFFSET: usize = 8;

// Room for any line: three numbers, each with the byte behind it.
pub const LINE_SIZE: usize = 3 * (usize::MAX_STR_LEN + 1);

// A text that is written from its end on, since the last digit of a number is
// the first to be known. It stands from `start` on.
// An arrayvec's string, filled from its front on, was tried and is slower.
#[derive(Drop)]
struct Text {
    bytes: [u8; LINE_SIZE],
    start: usize,
    ghost inside: { start ≤ 3 * (most_digits + 1) },
}

impl Text {
    // An empty text.
    fn new() -> Text
        ensures text { drop result.start result.bytes ≡ [] }
        ensures room { result.start ≡ 3 * (most_digits + 1) }
    {
        Text {
            bytes: [0; LINE_SIZE],
            start: LINE_SIZE,
        }
    }

    // Puts a number in decimal and the byte behind it before the text.
    fn put_column(&mut self, number: usize, behind: u8)
        requires { most_digits < self.old.start }
        ensures text { drop self.new.start self.new.bytes ≡ column number behind ++ drop self.old.start self.old.bytes }
        ensures room { self.old.start ≤ self.new.start + most_digits + 1 }
        ensures before { take self.new.start self.new.bytes ≡ take self.new.start self.old.bytes }
    {
        let end = self.start - 1;
        self.bytes[end] = behind;
        self.start = write_digits(number as u64, &mut self.bytes, end);
    }

    // Writes the text to the front of a buffer and answers its length, or
    // refuses and leaves the buffer as it was.
    fn write(&self, out: &mut [u8]) -> Result<usize, SectionFault>
        ensures value { result ≡ spaced (drop self.now.start self.now.bytes) out.old }
        ensures buffer { out.new ≡ spaced_buffer (drop self.now.start self.now.bytes) out.old }
        ensures bound { IfOk result (λ n. n ≤ length out.old) }
    {
        let text = &self.bytes[self.start..];
        let n = text.len();
        if n > out.len() {
            return Err(SectionFault::Space);
        }
        out[..n].copy_from_slice(text);
        Ok(n)
    }
}

// Bytes that are an ensemble.
#[derive(Clone, Copy)]
struct Known<'a> {
    bytes: &'a [u8],
    ghost ensemble: { IsEnsemble bytes.now },
}

impl<'a> Known<'a> {
    // The bytes from the Variable Leader on, which is the second section.
    #[tactic(auto, using(crate::proofs::Lines::leader_room))]
    fn from_leader(&self) -> &'a [u8]
        ensures value { result.now ≡ drop (offset self.now.bytes.now 1) self.now.bytes.now }
        ensures room { 65 ≤ length result.now }
    {
        let leader = u16::from_le_bytes([self.bytes[SECOND_OFFSET], self.bytes[SECOND_OFFSET + 1]]);
        &self.bytes[leader as usize..]
    }

    // The ensemble's number.
    #[tactic(auto, using(crate::proofs::Lines::number_at))]
    fn number(&self) -> u32
        ensures { result ≡ ensemble_number self.now.bytes.now }
    {
        let leader = self.from_leader();
        let [low, next, high] = [
            leader[NUMBER_LOW],
            leader[NUMBER_LOW + 1],
            leader[NUMBER_HIGH],
        ];
        u32::from_le_bytes([low, next, high, 0])
    }

    // Writes the ensemble's line.
    fn write_line(&self, out: &mut [u8]) -> Result<usize, SectionFault>
        ensures value { result ≡ frame_lined self.now.bytes.now out.old }
        ensures buffer { out.new ≡ frame_buffer self.now.bytes.now out.old }
        ensures bound { IfOk result (λ n. n ≤ length out.old) }
    {
        let mut line = Text::new();
        line.put_column(self.bytes[SECTION_COUNT] as usize, b'\n');
        line.put_column(self.bytes.len(), b' ');
        line.put_column(self.number() as usize, b' ');
        line.write(out)
    }
}

// Writes the line of the found frame, which is known to be an ensemble.
fn write_known(receiver: &Receiver, out: &mut [u8]) -> Result<usize, LineFault>
    requires { FoundEnsemble (view receiver.now) }
    ensures { IsLined (view receiver.now) out.old result out.new }
{
    let bytes = receiver.frame()?;
    Ok(Known { bytes }.write_line(out)?)
}

// Writes the line of the found frame, which may be no ensemble.
fn write_found(receiver: &Receiver, out: &mut [u8]) -> Result<usize, LineFault>
    ensures { IsLined (view receiver.now) out.old result out.new }
{
    let frame = receiver.frame()?;
    Ensemble::new().open(frame)?;
    write_known(receiver, out)
}

// Writes the line of the found frame to the front of a buffer and answers its
// length: the ensemble's number, its length and its number of sections, in
// decimal. A refusal leaves the buffer as it was.
pub fn line(receiver: &Receiver, out: &mut [u8]) -> Result<usize, LineFault>
    ensures { IsLined (view receiver.now) out.old result out.new }
{
    write_found(receiver, out)
}

// What a find and the line of what it found came to.
#[derive(Clone, Copy, PartialEq, Eq, Debug)]
pub struct Listed {
    pub finding: Finding,
    pub line: Result<usize, LineFault>,
}

// Finds the next PD0 ensemble. Where a frame was found before, it may have been
// found by another framing, so nothing is known of it. The clauses of find stand
// apart here: as one they have a premise on the longest, which PD0 meets.
fn find_ensemble(receiver: &mut Receiver) -> Finding
    ensures rule { Follows judged_run (view receiver.old) (finds result) (view receiver.new) }
    ensures first { StopsFirst judged_run (view receiver.old) result (view receiver.new) }
    ensures promise { Promised judged_run longest_size (view receiver.old) (finds result) (view receiver.new) }
    ensures known { (view receiver.old).found ≡ None → FoundEnsemble (view receiver.new) }
{
    receiver.find(&Pd0)
}

// Finds the next PD0 ensemble and writes its line: just what find and then
// line come to. What was judged in this call is not judged again.
pub fn find_line(receiver: &mut Receiver, out: &mut [u8]) -> Listed
    ensures rule { Follows judged_run (view receiver.old) (finds result.finding) (view receiver.new) }
    ensures first { StopsFirst judged_run (view receiver.old) result.finding (view receiver.new) }
    ensures promise { Promised judged_run longest_size (view receiver.old) (finds result.finding) (view receiver.new) }
    ensures lined { IsLined (view receiver.new) out.old result.line out.new }
{
    let is_new = receiver.frame().is_err();
    let finding = find_ensemble(receiver);
    Listed {
        finding,
        line: if is_new {
            write_known(receiver, out)
        } else {
            line(receiver, out)
        },
    }
}
