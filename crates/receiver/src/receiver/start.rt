ghost use Rattle.std.specs.Prelude.{◌≡◌};
ghost use Rattle.receiver.specs.State.{fresh};
ghost use Rattle.receiver.specs.View.{view};
ghost use Rattle.receiver.specs.Rule.{ends};
ghost use Rattle.receiver.specs.Promise.{Leads, PromisedNew};

use crate::receiver::{ROOM, Receiver};

impl Receiver {
    // A new receiver, which holds nothing.
    pub fn new() -> Receiver
        ensures state { view result ≡ fresh }
        ensures promise { PromisedNew (view result) }
    {
        Receiver {
            bytes: [0; ROOM],
            start: 0,
            end: 0,
            found: None,
            ended: false,
        }
    }

    fn set_ended(&mut self)
        ensures leads { Leads (view self.old) ends (view self.new) }
    {
        self.ended = true;
    }

    // Ends the receiver: no more bytes are taken. A second end changes nothing.
    pub fn end(&mut self)
        ensures leads { Leads (view self.old) ends (view self.new) }
    {
        self.set_ended();
    }
}
