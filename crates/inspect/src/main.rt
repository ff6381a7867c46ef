// Tells what is on standard input: a PD0 ensemble, an Aquadopp structure, or why
// it is neither.
#![tactic(auto)]

ghost use Rattle.std.specs.Prelude.{◌≡◌};
ghost use Rattle.inspect.specs.Spoken.{spoken};

use aquadopp::structure;
use aquadopp::structure::SYNC;
use faults::frame::FrameFault;
use faults::section::SectionFault;
use pd0::ensemble::Ensemble;
use pd0::judging::LONGEST;
use std::alloc::{AllocError, Global};
use std::io;
use std::io::Read;

#[cfg(test)]
mod reports;

// One byte more than the longest frame: by the contracts of both openings, a
// longer input is answered as its first bytes up to here are.
const KEPT: u64 = LONGEST as u64 + 1;

// The first bytes of standard input; the rest is read and let go, so that an
// input of any size needs no more memory than a frame.
fn read_input(rt: &HostRuntime) -> io::Result<Vec<u8>> {
    let mut kept = Vec::new(rt.alloc());
    rt.stdin().take(KEPT).read_to_end(&mut kept)?;
    io::copy(&mut rt.stdin(), &mut io::sink())?;
    Ok(kept)
}

// What an ensemble holds, a line for it and one for each section.
fn ensemble_report(heap: Global, ensemble: &Ensemble) -> Result<String, AllocError> {
    let length = ensemble.bytes().len();
    let sections = ensemble.sections();
    let cells = ensemble.cells();
    let mut report = format!(in heap;
        "PD0 ensemble: length {length}, sections {sections}, cells {cells}\n"
    )?;
    for number in 1..=sections {
        // by number, since the number is printed; each has a section
        if let Some((section, first)) = ensemble.section(number).zip(ensemble.first_byte(number)) {
            let kind = section.kind();
            let first = first.0;
            let length = section.bytes().len();
            writeln!(
                report,
                "section {number}: {kind}, first byte {first}, length {length}"
            )?;
        }
    }
    Ok(report)
}

// Of the two makers' refusals the one that the first byte speaks for: the sync
// byte begins an Aquadopp structure, and anything else is held to PD0.
fn refusal(bytes: &[u8], as_ensemble: SectionFault, as_structure: FrameFault) -> SectionFault
    ensures { result ≡ spoken bytes.now as_ensemble as_structure }
{
    if bytes.starts_with(&[SYNC]) {
        as_structure.into()
    } else {
        as_ensemble
    }
}

// Number, layer and place of a refusal, and what it means.
fn refusal_report(heap: Global, fault: SectionFault) -> Result<String, AllocError> {
    let number = fault.number();
    let layer = fault.layer();
    let place = fault.place().0;
    format!(in heap; "refused {number} {layer} {place}: {fault}\n")
}

// What the bytes are.
fn report(heap: Global, bytes: &[u8]) -> Result<String, AllocError> {
    let mut ensemble = Ensemble::new();
    let Err(as_ensemble) = ensemble.open(bytes) else {
        return ensemble_report(heap, &ensemble);
    };
    match structure::open(bytes) {
        Ok(id) => {
            let length = bytes.len();
            format!(in heap; "Aquadopp structure: id {id:02X}, length {length}\n")
        }
        Err(as_structure) => refusal_report(heap, refusal(bytes, as_ensemble, as_structure)),
    }
}

fn main(rt: HostRuntime) -> io::Result<()> {
    let input = read_input(&rt)?;
    let text = report(rt.alloc(), input.as_slice())?;
    print!(rt; "{text}")
}
