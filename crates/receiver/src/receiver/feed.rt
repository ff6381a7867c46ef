ghost use Rattle.std.specs.Prelude.{◌≡◌, ◌+◌, ◌≤◌, length, IfSome, IfNone, IfOk, OnErr, ok_or};
ghost use Rattle.faults.specs.declared.line.LineFault.TheVariants.{Ended};
ghost use Rattle.receiver.specs.State.{capacity, room};
ghost use Rattle.receiver.specs.View.{view};
ghost use Rattle.receiver.specs.Rule.{feeds};
ghost use Rattle.receiver.specs.Promise.{Leads};

use crate::receiver::{CAPACITY, ROOM, Receiver};
use faults::line::LineFault;

impl Receiver {
    // Moves the held bytes to the front, where the places behind them are
    // fewer than `count`.
    fn make_room(&mut self, count: usize)
        requires { count + self.old.end ≤ self.old.start + capacity }
        ensures same { view self.new ≡ view self.old }
        ensures free { self.new.end + count ≤ room }
        ensures few { self.new.end + count ≤ self.new.start + capacity }
    {
        if count > ROOM - self.end {
            self.bytes.copy_within(self.start..self.end, 0);
            self.end -= self.start;
            self.start = 0;
        }
    }

    // Takes the leading bytes for which there is space; none is taken after
    // the end.
    fn take(&mut self, bytes: &[u8]) -> Option<usize>
        ensures leads { Leads (view self.old) (feeds bytes.now (ok_or result Ended)) (view self.new) }
        ensures bound { IfSome result (λ n. n ≤ length bytes.now) }
        ensures kept { IfNone result (self.new ≡ self.old) }
    {
        if self.ended {
            return None;
        }
        let count = bytes.len().min(CAPACITY - self.held().len());
        self.make_room(count);
        let end = self.end + count;
        self.bytes[self.end..end].copy_from_slice(&bytes[..count]);
        self.end = end;
        Some(count)
    }

    // Takes as many leading bytes as there is space for, and answers how many.
    pub fn feed(&mut self, bytes: &[u8]) -> Result<usize, LineFault>
        ensures leads { Leads (view self.old) (feeds bytes.now result) (view self.new) }
        ensures bound { IfOk result (λ n. n ≤ length bytes.now) }
        ensures kept { OnErr result (self.new ≡ self.old) }
    {
        self.take(bytes).ok_or(LineFault::Ended)
    }
}
