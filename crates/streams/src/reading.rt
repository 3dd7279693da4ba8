// The tape's bytes: those that are read and not taken yet stand in a buffer.
ghost use Rattle.std.specs.Prelude.{◌≡◌, ◌+◌, ◌-◌, ◌*◌, ◌^◌, ◌≤◌, ◌<◌, ◌↔◌, [], true, IsOk, IfOk, length, take, drop};
ghost use Rattle.std.specs.Io.KnownBytes.{Keeps, IsAtEnd, prepend_known};
ghost use Rattle.tape.specs.Tape.{next};
ghost use Rattle.streams.specs.Streams.{Refilled, bytes_of, readable, taken};

use crate::{Input as Place, Source};
use std::io;
use std::io::Read;
use std::marker::Model;
use tape::{Call, Malformed};

// So many bytes are held at most.
const SIZE: usize = 65536;

// A call of the tape has at most so many bytes.
const LONGEST: usize = 26;

// A read failed.
#[derive(Clone, Copy, Debug, PartialEq, Eq)]
pub struct Unread;

// A tape's buffer, and where its reading stands in it.
#[derive(Drop)]
pub struct Input {
    bytes: [u8; SIZE],
    place: Place,
}

impl Model for Input {
    ghost use Rattle.std.specs.Prelude.{◌≤◌, ◌-◌, take, drop};
    ghost use Rattle.streams.specs.Streams.{Left};

    ghost Value = { Left };

    ghost view = { λ i. record { bytes = take (i.place.filled - i.place.at) (drop i.place.at i.bytes); offset = i.place.offset; source = i.place.source } };

    ghost invariant = { λ i. (i.place.at ≤ i.place.filled) × (i.place.filled ≤ 65536) };
}

// One read, behind the first n bytes. What it brought, the reader has no longer; and where it brought nothing the reader is at its end.
fn read_behind<R: Read>(reader: &mut R, buf: &mut [u8], n: usize) -> io::Result<usize>
    requires { n ≤ length buf.old }
    ensures buf_unchanged { take n buf.new ≡ take n buf.old }
    ensures brought { IfOk result (λ k. n + k ≤ length buf.old) }
    ensures kept { Keeps (prepend_known (take n buf.old) (R.remaining reader.old))
        (prepend_known (take (n + bytes_of result) buf.new) (R.remaining reader.new)) }
    ensures end { result ≡ Ok 0 → n < length buf.old → IsAtEnd (R.remaining reader.new) }
{
    reader.read(&mut buf[n..])
}

// Reads behind the first n bytes until a whole call is there in any case, the tape ends or a read fails: where the bytes end then, and what is known of the tape.
fn fill<R: Read>(reader: &mut R, buf: &mut [u8], n: usize) -> (usize, Source)
    requires n_bound { n ≤ 26 }
    requires in_bounds { 26 ≤ length buf.old }
    ensures buf_unchanged { take n buf.new ≡ take n buf.old }
    ensures n_le_filled { n ≤ result.0 }
    ensures filled_in_bounds { result.0 ≤ length buf.old }
    ensures le_filled { result.1 ≡ Source.Open → 26 ≤ result.0 }
    ensures kept { Keeps (prepend_known (take n buf.old) (R.remaining reader.old))
        (prepend_known (take result.0 buf.new) (R.remaining reader.new)) }
    ensures end { result.1 ≡ Source.Closed → IsAtEnd (R.remaining reader.new) }
{
    let mut filled = n;
    // Each turn goes on by what a read brought.
    while filled < LONGEST {
        match read_behind(reader, buf, filled) {
            Ok(0) => return (filled, Source::Closed),
            Ok(k) => filled += k,
            Err(_) => return (filled, Source::Failed),
        }
    }
    (filled, Source::Open)
}

impl Input {
    // A tape of which nothing is read yet.
    pub fn new() -> Self
        ensures { result ≡ record { bytes = []; offset = 0; source = Source.Open } }
    {
        Input {
            bytes: [0; SIZE],
            place: Place {
                at: 0,
                filled: 0,
                offset: 0,
                source: Source::Open,
            },
        }
    }

    pub fn offset(&self) -> u64
        ensures { result ≡ self.now.offset }
    {
        self.place.offset
    }

    // A whole call, or all that is left of the tape, stands in the buffer. No byte is lost or told twice: what is left in the buffer, and what the reader has behind it,
    // are as they were together.
    pub fn refill<R: Read>(&mut self, reader: &mut R) -> Result<(), Unread>
        ensures refilled { Refilled self.old self.new }
        ensures kept { Keeps (prepend_known self.old.bytes (R.remaining reader.old))
            (prepend_known self.new.bytes (R.remaining reader.new)) }
        ensures end { (self.old.source ≡ Source.Closed → IsAtEnd (R.remaining reader.old))
            → self.new.source ≡ Source.Closed → IsAtEnd (R.remaining reader.new) }
        ensures variant { IsOk result ↔ (readable self.new.source ≡ true) }
    {
        let n = self.place.filled - self.place.at;
        if n < LONGEST && self.place.source == Source::Open {
            self.bytes.copy_within(self.place.at..self.place.filled, 0);
            let (filled, source) = fill(reader, &mut self.bytes, n);
            self.place.at = 0;
            self.place.filled = filled;
            self.place.source = source;
        }
        if self.place.source == Source::Failed {
            return Err(Unread);
        }
        Ok(())
    }

    // What stands next in the buffer.
    pub fn next(&self) -> Result<Option<Call>, Malformed>
        ensures { result ≡ next self.now.bytes }
    {
        tape::read::read_call(&self.bytes[self.place.at..self.place.filled])
    }

    // A call's bytes are taken.
    pub fn take(&mut self, size: usize)
        requires size_bound { size ≤ length self.old.bytes }
        requires offset_bound { self.old.offset + size < 2 ^ 64 }
        ensures { self.new ≡ taken size self.old }
    {
        self.place.at += size;
        self.place.offset += size as u64;
    }
}
