ghost use Rattle.std.specs.Prelude.{◌≡◌, ◌+◌, ◌-◌, ◌≤◌};
ghost use Rattle.framing.specs.Laws.{Bytes};
ghost use Rattle.receiver.specs.View.{view};
ghost use Rattle.receiver.specs.Rule.{consulted, turn_of};
ghost use Rattle.receiver.specs.Promise.{FindLeads};

use crate::answer::{Answer, Finding};
use crate::receiver::{CAPACITY, Receiver};
use framing::framing::Framing;
use framing::verdict::Verdict;

// What find does next. An enum of its own, not a `ControlFlow` or `Result` of
// an answer: a kept frame would have to be taken out of that by a second match.
#[derive(Clone, Copy)]
enum Turn {
    // The first so many held bytes are a frame.
    Keep(usize),
    // No frame yet; so many bytes are asked for.
    Wait(usize),
    // Nothing is held, and nothing more will come.
    Over,
    // The front byte begins no frame; so many bytes are dropped.
    Drop(usize),
}

impl Receiver {
    // The held bytes. That they are bytes stands in three contracts: without it
    // the proof of a loop that changes the receiver does not close.
    pub(crate) fn held(&self) -> &[u8]
        ensures value { result.now ≡ (view self.now).held }
        ensures octets { Bytes (view self.now).held }
    {
        &self.bytes[self.start..self.end]
    }

    // The framing's verdict on the held bytes. It is not asked where a frame is
    // found already, or where nothing is held.
    fn verdict<F: Framing>(&self, framing: &F) -> Option<Verdict>
        ensures value { result ≡ consulted (F.Framing.judged framing.now) self.now.found (view self.now).held }
        ensures octets { Bytes (view self.now).held }
    {
        let held = self.held();
        if self.found.is_some() || held.is_empty() {
            None
        } else {
            Some(framing.judge(held))
        }
    }

    // Keep, drop or wait. A false start costs one byte, whatever length it
    // claims: a frame may begin inside of it.
    fn decide<F: Framing>(&self, framing: &F) -> Turn
        ensures value { result ≡ turn_of (F.Framing.judged framing.now) (view self.now) }
        ensures octets { Bytes (view self.now).held }
    {
        match (self.found, self.ended, self.verdict(framing)) {
            (Some(n), _, _) => Turn::Keep(n),
            (None, true, None) => Turn::Over,
            (None, false, None) => Turn::Wait(1),
            (None, _, Some(Verdict::Sound(n))) => Turn::Keep(n),
            (None, _, Some(Verdict::Unfit)) => Turn::Drop(1),
            (None, true, Some(Verdict::Short(_))) => Turn::Drop(1),
            (None, false, Some(Verdict::Short(m))) if m <= CAPACITY => Turn::Wait(m),
            (None, false, Some(Verdict::Short(_))) => Turn::Drop(1),
        }
    }

    // Drops bytes up to a frame, or until more are wanted, or none are left.
    fn search<F: Framing>(&mut self, framing: &F) -> Answer
        ensures forth { self.old.start ≤ self.new.start }
        ensures leads { FindLeads (F.Framing.judged framing.now) (F.Framing.reach framing.now) (view self.old) (record { answer = result; dropped = self.new.start - self.old.start }) (view self.new) }
    {
        loop {
            match self.decide(framing) {
                Turn::Keep(n) => {
                    self.found = Some(n);
                    return Answer::Frame(n);
                }
                Turn::Wait(m) => return Answer::Wanting(m),
                Turn::Over => return Answer::Over,
                Turn::Drop(k) => self.start += k,
            }
        }
    }

    // Finds the next frame by this framing: keeps a frame at the front, waits
    // for more bytes, or drops the front byte and looks again.
    pub fn find<F: Framing>(&mut self, framing: &F) -> Finding
        ensures { FindLeads (F.Framing.judged framing.now) (F.Framing.reach framing.now) (view self.old) result (view self.new) }
    {
        let start = self.start;
        let answer = self.search(framing);
        Finding {
            answer,
            dropped: self.start - start,
        }
    }
}
