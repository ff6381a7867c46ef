ghost use Rattle.std.specs.Prelude.{◌≡◌, IfNone, OnErr, ok_or};
ghost use Rattle.faults.specs.declared.line.LineFault.TheVariants.{NoFrame};
ghost use Rattle.receiver.specs.View.{view, shown};
ghost use Rattle.receiver.specs.Rule.{found_frame, shows, passes};
ghost use Rattle.receiver.specs.Promise.{Leads};

use crate::receiver::Receiver;
use faults::line::LineFault;

impl Receiver {
    // The found frame, where there is one.
    fn front(&self) -> Option<&[u8]>
        ensures value { shown (ok_or result NoFrame) ≡ found_frame (view self.now).found (view self.now).held }
        ensures leads { Leads (view self.now) (shows (shown (ok_or result NoFrame))) (view self.now) }
    {
        self.found.map(|n| &self.held()[..n])
    }

    // Shows the found frame, as a part of the held bytes.
    pub fn frame(&self) -> Result<&[u8], LineFault>
        ensures value { shown result ≡ found_frame (view self.now).found (view self.now).held }
        ensures leads { Leads (view self.now) (shows (shown result)) (view self.now) }
    {
        self.front().ok_or(LineFault::NoFrame)
    }

    // Lets the found frame go, where there is one.
    fn leave(&mut self) -> Option<usize>
        ensures leads { Leads (view self.old) (passes (ok_or result NoFrame)) (view self.new) }
        ensures kept { IfNone result (self.new ≡ self.old) }
    {
        let n = self.found.take()?;
        self.start += n;
        Some(n)
    }

    // Removes the found frame, and answers its length.
    pub fn pass(&mut self) -> Result<usize, LineFault>
        ensures leads { Leads (view self.old) (passes result) (view self.new) }
        ensures kept { OnErr result (self.new ≡ self.old) }
    {
        self.leave().ok_or(LineFault::NoFrame)
    }
}
