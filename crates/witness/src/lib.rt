// What stands on the receiver's promise: all that it asks for can hold at once,
// and a caller has it by chaining the calls' contracts.
#![tactic(auto)]

ghost use Rattle.std.specs.Prelude.{◌≡◌, ◌≤◌, length};
ghost use Rattle.std.specs.Result.{result_unwrap_or};
ghost use Rattle.framing.specs.Laws.{Lawful};
ghost use Rattle.receiver.specs.State.{capacity};
ghost use Rattle.receiver.specs.View.{view};
ghost use Rattle.receiver.specs.Promise.{Promise, BothPassed};
ghost use Rattle.witness.specs.Premises.{BothEnough, OverEnough};
ghost use Rattle.witness.specs.Witness.{BothMet, OverMet, AllHavePassed, OverlapCosts};
ghost use Rattle.witness.specs.Session.{PromisedRound, record_of};

use faults::line::LineFault;
use framing::framing::Framing;
use pd0::judging::Pd0;
use receiver::answer::Finding;
use receiver::receiver::Receiver;

// A framing keeps its laws.
fn keeps_laws<F: Framing>(framing: &F)
    ensures { Lawful (F.Framing.judged framing.now) (F.Framing.reach framing.now) }
{}

// How far behind the joints of the records their second ensemble starts.
fn distance() -> usize
    ensures value { result ≡ 4096 }
    ensures both { BothMet result }
    ensures over { OverMet result }
    ensures passed { AllHavePassed result }
    ensures costs { OverlapCosts }
    ensures enough { BothEnough × OverEnough }
{
    keeps_laws(&Pd0);
    4096
}

// A distance behind the joints at which all premises of the promise hold at
// once, of records over PD0 ensembles; that no premise is left out; and that
// what is promised then is so.
pub fn frame_distance() -> usize
    ensures both { BothMet result }
    ensures over { OverMet result }
    ensures passed { AllHavePassed result }
    ensures costs { OverlapCosts }
    ensures enough { BothEnough × OverEnough }
{
    distance()
}

// What a feed, a find and a pass answered, one after the other.
#[derive(Drop)]
pub struct Round {
    pub fed: Result<usize, LineFault>,
    pub found: Finding,
    pub passed: Result<usize, LineFault>,
}

// A receiver after two rounds and a find, with all answers.
#[derive(Drop)]
pub struct Heard {
    pub receiver: Receiver,
    pub first: Round,
    pub second: Round,
    pub last: Finding,
}

// Feeds, finds and passes. Here and below the promise has its premise, that the
// framing's longest fits, in each contract: under a name it could not be read.
fn listen_once<F: Framing>(receiver: &mut Receiver, framing: &F, bytes: &[u8]) -> Round
    ensures promise { F.Framing.reach framing.now ≤ capacity → PromisedRound (F.Framing.judged framing.now) (F.Framing.reach framing.now) (view receiver.old) bytes.now result (view receiver.new) }
    ensures bound { result_unwrap_or result.fed 0 ≤ length bytes.now }
{
    Round {
        fed: receiver.feed(bytes),
        found: receiver.find(framing),
        passed: receiver.pass(),
    }
}

// A new receiver takes the bytes in two rounds, and finds once more.
fn listen<F: Framing>(framing: &F, bytes: &[u8]) -> Heard
    ensures { F.Framing.reach framing.now ≤ capacity → Promise (F.Framing.judged framing.now) (F.Framing.reach framing.now) (record_of bytes.now result) (view result.receiver) }
{
    let mut receiver = Receiver::new();
    let first = listen_once(&mut receiver, framing, bytes);
    let second = listen_once(&mut receiver, framing, &bytes[first.fed.unwrap_or(0)..]);
    let last = receiver.find(framing);
    Heard {
        receiver,
        first,
        second,
        last,
    }
}

// Two receivers, one after the other.
fn listen_each<F: Framing>(framing: &F, one: &[u8], two: &[u8]) -> (Heard, Heard)
    ensures { F.Framing.reach framing.now ≤ capacity → BothPassed (F.Framing.judged framing.now) (F.Framing.reach framing.now) (record_of one.now result.0) (record_of two.now result.1) }
{
    (listen(framing, one), listen(framing, two))
}

// Two receivers under one framing, each on bytes of its own: they have the
// promise together, whatever the bytes are.
pub fn listen_both<F: Framing>(framing: &F, one: &[u8], two: &[u8]) -> (Heard, Heard)
    ensures { F.Framing.reach framing.now ≤ capacity → BothPassed (F.Framing.judged framing.now) (F.Framing.reach framing.now) (record_of one.now result.0) (record_of two.now result.1) }
{
    listen_each(framing, one, two)
}
