// Lists the PD0 ensembles of a recording on standard input, a line for each:
// its number, its length in bytes and its number of sections. Noise and damage
// are passed over. A summary goes to standard error.
#![tactic(auto)]

ghost use Rattle.std.specs.Prelude.{◌≡◌, ◌+◌, ◌<◌, ◌≤◌, IfSome, IfOk};
ghost use Rattle.receiver.specs.View.{view};
ghost use Rattle.station.specs.Left.{left};

use receiver::answer::Answer;
use receiver::receiver::Receiver;
use station::line::{LINE_SIZE, find_line};
use std::io;
use std::io::{Read, Write};

// How many bytes are read at a time.
const PIECE: usize = 65536;

// How much text is gathered before it is written.
const TEXT: usize = 16384;

// A listing so far. Lines are gathered in fixed memory: a `BufWriter` asks for
// memory, which may not be there, and where a write has failed it tries to write
// the same lines once more when it goes.
#[derive(Drop)]
struct Listing<W: Write + Drop> {
    receiver: Receiver,
    out: W,
    // the lines that are not written yet are the first `used` bytes
    text: [u8; TEXT],
    used: usize,
    ensembles: u64,
    read: u64,
    dropped: u64,
    ghost within: { used ≤ 16384 },
}

// An error that no input can bring about, by the rules of the receiver.
fn unexpected(words: &'static str) -> io::Error {
    io::Error::other(words)
}

impl<W: Write + Drop> Listing<W> {
    fn new(out: W) -> Listing<W> {
        Listing {
            receiver: Receiver::new(),
            out,
            text: [0; TEXT],
            used: 0,
            ensembles: 0,
            read: 0,
            dropped: 0,
        }
    }

    // Writes the lines that wait.
    fn write_lines(&mut self) -> io::Result<()>
        ensures { self.new.receiver ≡ self.old.receiver }
    {
        self.out.write_all(&self.text[..self.used])?;
        self.used = 0;
        Ok(())
    }

    // Finds the next ensemble, makes its line behind those that wait and lets the
    // ensemble go. Answers the line's length, and none where there is no ensemble
    // yet.
    fn list_next(&mut self) -> io::Result<Option<usize>>
        ensures fewer { IfOk result (λ o. IfSome o (λ _. left (view self.new.receiver) < left (view self.old.receiver))) }
        ensures bound { IfOk result (λ o. IfSome o (λ n. self.new.used + n ≤ 16384)) }
    {
        let listed = find_line(&mut self.receiver, &mut self.text[self.used..]);
        let dropped = listed.finding.dropped as u64;
        self.dropped = self.dropped.saturating_add(dropped);
        let Answer::Frame(_) = listed.finding.answer else {
            return Ok(None);
        };
        let (Ok(count), Ok(_)) = (listed.line, self.receiver.pass()) else {
            return Err(unexpected("a found ensemble was refused"));
        };
        self.ensembles = self.ensembles.saturating_add(1);
        Ok(Some(count))
    }

    // Lists every ensemble among the held bytes.
    fn list_held(&mut self) -> io::Result<()> {
        while let Some(count) = self.list_next()? {
            self.used += count;
            // so that there is room for the next line, whichever it is
            if self.used > TEXT - LINE_SIZE {
                self.write_lines()?;
            }
        }
        Ok(())
    }

    // Takes all bytes of a piece and lists the ensembles as they come.
    fn list_piece(&mut self, piece: &[u8]) -> io::Result<()> {
        let mut rest = piece;
        while !rest.is_empty() {
            // a receiver that wants more has space, so it takes a byte or more
            let Ok(count @ 1..) = self.receiver.feed(rest) else {
                return Err(unexpected("bytes were not taken"));
            };
            rest = &rest[count..];
            self.list_held()?;
        }
        self.read = self.read.saturating_add(piece.len() as u64);
        // what is known of a live recording is shown before the next wait
        self.write_lines()
    }
}

fn main(rt: HostRuntime) -> io::Result<()> {
    let mut listing = Listing::new(rt.stdout());
    let mut piece = vec![in rt.alloc(); 0u8; PIECE]?;
    // counted, since a loop has to end, and nothing says that an input does
    for _ in 0..u64::MAX {
        let count = rt.stdin().read(piece.as_mut_slice())?;
        if count == 0 {
            break;
        }
        listing.list_piece(&piece[..count])?;
    }
    listing.receiver.end();
    listing.list_held()?;
    listing.write_lines()?;
    listing.out.flush()?;
    let Listing {
        ensembles,
        read,
        dropped,
        ..
    } = listing;
    eprintln!(rt; "ensembles {ensembles}, bytes read {read}, bytes dropped {dropped}")
}
