// Receivers: what each find answers and drops, and what refused calls leave.
use crate::ensembles::{LEADERS, ensemble};
use crate::framings::small_structure;
use aquadopp::judging::Aquadopp;
use faults::line::LineFault;
use faults::section::SectionFault;
use framing::framing::Framing;
use framing::pair::Pair;
use pd0::judging::Pd0;
use receiver::answer::{Answer, Finding};
use receiver::receiver::Receiver;
use station::line::{find_line, line};
use std::process::Abort;
use std::test::Fail;

// Two leaders of their least sizes, one cell, and zeros.
fn small_ensemble() -> [u8; 131] {
    ensemble(&LEADERS, 1)
}

// The longest ensemble: what the second leader has more are zeros.
fn longest_ensemble() -> [u8; 4096] {
    ensemble(&LEADERS, 1)
}

// What find answers, and how many bytes it dropped before.
fn finding(answer: Answer, dropped: usize) -> Finding {
    Finding { answer, dropped }
}

#[test]
fn new_receiver_wants_one_byte(rt: HostRuntime) {
    let mut receiver = Receiver::new();
    assert_eq!(rt; receiver.find(&Pd0), finding(Answer::Wanting(1), 0));
    assert_eq!(rt; receiver.pass(), Err(LineFault::NoFrame));
    assert!(rt; receiver.frame().is_err());
    receiver.end();
    assert_eq!(rt; receiver.find(&Pd0), finding(Answer::Over, 0));
    assert_eq!(rt; receiver.feed(&[]), Err(LineFault::Ended));
}

#[test]
fn small_ensemble_is_found(rt: HostRuntime) -> Result<(), Fail> {
    let mut receiver = Receiver::new();
    let bytes = small_ensemble();
    assert_eq!(rt; receiver.feed(&bytes), Ok(131));
    assert_eq!(rt; receiver.find(&Pd0), finding(Answer::Frame(131), 0));
    assert_eq!(rt; receiver.feed(&bytes[0..7]), Ok(7));
    // a found frame is answered again, under another framing too
    assert_eq!(rt; receiver.find(&Aquadopp), finding(Answer::Frame(131), 0));
    receiver.end();
    assert_eq!(rt; receiver.frame()?.len(), 131);
    assert_eq!(rt; receiver.frame()?[129], 0x4a);
    assert_eq!(rt; receiver.pass(), Ok(131));
    assert_eq!(rt; receiver.pass(), Err(LineFault::NoFrame));
    assert_eq!(rt; receiver.find(&Pd0), finding(Answer::Over, 7));
    Ok(())
}

#[test]
fn damaged_ensemble_is_dropped(rt: HostRuntime) {
    let mut receiver = Receiver::new();
    let mut bytes = small_ensemble();
    bytes[130] = 0x03;
    assert_eq!(rt; receiver.feed(&bytes), Ok(131));
    assert_eq!(rt; receiver.find(&Pd0), finding(Answer::Wanting(6), 126));
    assert_eq!(rt; receiver.find(&Pd0), finding(Answer::Wanting(6), 0));
}

#[test]
fn byte_before_an_ensemble_is_dropped(rt: HostRuntime) {
    let mut receiver = Receiver::new();
    assert_eq!(rt; receiver.feed(&[0x7f]), Ok(1));
    assert_eq!(rt; receiver.feed(&small_ensemble()), Ok(131));
    assert_eq!(rt; receiver.find(&Pd0), finding(Answer::Frame(131), 1));
}

// A head that claims 42 bytes, and the small structure inside of these.
fn false_head(rt: &impl Abort) -> Receiver {
    let mut receiver = Receiver::new();
    assert_eq!(rt; receiver.feed(&[0xa5, 0x01, 0x15, 0x00]), Ok(4));
    assert_eq!(rt; receiver.feed(&small_structure()), Ok(36));
    assert_eq!(rt; receiver.find(&Aquadopp), finding(Answer::Wanting(42), 0));
    receiver
}

#[test]
fn structure_inside_a_false_claim_is_found(rt: HostRuntime) {
    let mut receiver = false_head(&rt);
    assert_eq!(rt; receiver.feed(&[0x00, 0x00]), Ok(2));
    assert_eq!(rt; receiver.find(&Aquadopp), finding(Answer::Frame(36), 4));
    let mut receiver = false_head(&rt);
    receiver.end();
    assert_eq!(rt; receiver.find(&Aquadopp), finding(Answer::Frame(36), 4));
}

#[test]
fn pair_waits_for_its_first(rt: HostRuntime) {
    let mut receiver = Receiver::new();
    assert_eq!(rt; receiver.feed(&[0xa5, 0x06, 0x12, 0x00]), Ok(4));
    let pair = Pair {
        first: Pd0,
        second: Aquadopp,
    };
    assert_eq!(rt; receiver.find(&pair), finding(Answer::Wanting(6), 0));
}

// Feeds one byte after another, with refused calls between, and expects no
// frame before the last.
fn feed_singly(rt: &impl Abort, receiver: &mut Receiver, bytes: &[u8]) {
    for (i, byte) in bytes.chunks(1).enumerate() {
        assert_eq!(rt; receiver.pass(), Err(LineFault::NoFrame));
        assert_eq!(rt; receiver.feed(byte), Ok(1));
        assert!(rt; receiver.frame().is_err());
        let finding = receiver.find(&Pd0);
        assert_eq!(rt; finding.dropped, 0);
        assert!(rt; (finding.answer == Answer::Frame(bytes.len())) == (i + 1 == bytes.len()));
    }
}

#[test]
fn longest_ensembles_come_byte_by_byte(rt: HostRuntime) -> Result<(), Fail> {
    let mut receiver = Receiver::new();
    let bytes = longest_ensemble();
    for _ in 0..5 {
        feed_singly(&rt, &mut receiver, &bytes);
        assert_eq!(rt; receiver.frame()?.len(), 4096);
        assert_eq!(rt; receiver.pass(), Ok(4096));
    }
    Ok(())
}

#[test]
fn line_of_the_small_ensemble(rt: HostRuntime) {
    let mut receiver = Receiver::new();
    let mut out = [0xee; 9];
    assert_eq!(rt; line(&receiver, &mut out), Err(LineFault::NoFrame));
    assert_eq!(rt; receiver.feed(&small_ensemble()), Ok(131));
    let listed = find_line(&mut receiver, &mut out);
    assert_eq!(rt; listed.finding, finding(Answer::Frame(131), 0));
    assert_eq!(rt; listed.line, Ok(8));
    assert!(rt; out.starts_with(b"0 131 2\n\xee"));
    let mut short = [0xee; 7];
    let refused = line(&receiver, &mut short);
    assert_eq!(rt; refused, Err(LineFault::InSection(SectionFault::Space)));
    assert!(rt; short.starts_with(&[0xee; 7]));
}

#[test]
fn line_of_what_is_no_ensemble(rt: HostRuntime) {
    let mut receiver = Receiver::new();
    let mut out = [0xee; 20];
    assert_eq!(rt; receiver.feed(&small_structure()), Ok(36));
    assert_eq!(rt; receiver.find(&Aquadopp), finding(Answer::Frame(36), 0));
    let refused = line(&receiver, &mut out);
    assert_eq!(rt; refused, find_line(&mut receiver, &mut out).line);
    assert!(rt; out.starts_with(&[0xee; 20]));
    let told = refused.map_err(|fault| (fault.number(), fault.place().0));
    assert_eq!(rt; told, Err((2, 1)));
}
