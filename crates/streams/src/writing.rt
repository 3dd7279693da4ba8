// The key's text: what is put stands in a buffer until it is written.
ghost use Rattle.std.specs.Prelude.{◌≡◌, ◌++◌, ◌+◌, ◌≤◌, OnOk, length};
ghost use Rattle.std.specs.Io.KnownBytes.{Keeps, Appends, append_known};
ghost use Rattle.tape.specs.Text.{count_text};
ghost use Rattle.streams.specs.Streams.{kept, frames_word, last_text};

use std::io::Write;
use tape::text::Text;

// The text that is put and not written yet.
pub type Output = Text<65536>;

// A line has at most so many bytes.
const LINE: usize = 64;

const SIZE: usize = 65536;

// A write failed.
#[derive(Clone, Copy, Debug, PartialEq, Eq)]
pub struct Unwritten;

// All that is put, written.
pub fn write<W: Write>(writer: &mut W, out: &Output) -> Result<(), Unwritten>
    ensures { OnOk result (Appends (W.contents writer.old) (W.contents writer.new) out.now) }
{
    writer.write_all(out.as_slice()).map_err(|_| Unwritten)
}

// What is put is written once there is no room for a line behind it. What the writer holds, and what is put behind it, are as they were together.
pub fn flush<W: Write>(writer: &mut W, out: &mut Output) -> Result<(), Unwritten>
    ensures text { out.new ≡ kept out.old }
    ensures room { length out.new + 64 ≤ 65536 }
    ensures kept { OnOk result (Keeps (append_known (W.contents writer.old) out.old)
        (append_known (W.contents writer.new) out.new)) }
{
    if out.as_slice().len() <= SIZE - LINE {
        return Ok(());
    }
    let written = write(writer, out);
    out.clear();
    written
}

// The last line behind all that is put, and all of it written. What is handed to the last write then is the text that was still to be written, and the line.
pub fn write_last<W: Write>(
    writer: &mut W,
    out: &mut Output,
    allocated: u64,
) -> Result<(), Unwritten>
    ensures handed { OnOk result (out.new ≡ last_text out.old allocated) }
    ensures whole { OnOk result (Appends (W.contents writer.old) (W.contents writer.new)
        (out.old ++ count_text frames_word allocated)) }
{
    flush(writer, out)?;
    out.put_count(b"frames", allocated);
    write(writer, out)
}

// What stands in the way of a key, handed to one `write_all`.
pub fn complain<W: Write>(writer: &mut W, text: &[u8]) -> Result<(), Unwritten>
    ensures { OnOk result (Appends (W.contents writer.old) (W.contents writer.new) text.now) }
{
    writer.write_all(text).map_err(|_| Unwritten)
}
