// The key program's loop: a call tape from a reader, played on a fresh board, and its key to a writer. Where a read or a write fails, a message goes to a second
// writer and the last line is left out.
#![tactic(auto)]

ghost use Rattle.std.specs.Prelude.{◌≡◌, ◌≤◌, [], true, ◌++◌, OnOk};
ghost use Rattle.std.specs.Io.KnownBytes.{Appends};
ghost use Rattle.board.specs.Packed.{board_of, lists_fit};
ghost use Rattle.tape.specs.Text.{count_text};
ghost use Rattle.streams.specs.declared.Source.TheVariants.{Open};
ghost use Rattle.streams.specs.Streams.{frames_word};
ghost use Rattle.turn.specs.Run.{Going, run_of};
ghost use Rattle.runner.specs.Key.{WritesKey, first_board};
ghost use Rattle.runner.specs.Loop.{TurnedBy, Ran, LoopEndBy};
ghost use Rattle.std.specs.Process.{exit_status};
ghost use Rattle.runner.specs.Ends.{stage_of_turn, stage_of_run, status_of};

use address::Frame;
use board::Records;
use frame::{FrameAllocator, Marks};
use std::fmt::{InlineText, Write as _};
use std::io::{Read, Write};
use std::ops::ControlFlow;
use std::process::ExitCode;
use streams::reading::Input;
use streams::writing;
use streams::writing::Output;
use turn::{KernelBytes, MarkedBytes, UserBytes};

mod error;

pub use error::RunError;

// Board: 16 frames from 0x100000.
const FIRST: u64 = 0x10_0000;

const LAST: u64 = 0x11_0000;

// The longest tape that is counted.
const MOST: u64 = 0x8000_0000_0000_0000;

// One call further: with a whole call in the buffer if the tape has one, and room for its line. Text is written where a read failed too.
fn advance<R: Read, W: Write>(
    reader: &mut R,
    writer: &mut W,
    words: &mut [u64; 8192],
    bitmap: &mut Marks,
    kernel: &mut KernelBytes,
    user: &mut UserBytes,
    marked: &mut MarkedBytes,
    records: &mut Records,
    input: &mut Input,
    out: &mut Output,
) -> Result<ControlFlow<()>, RunError>
    requires { lists_fit kernel.old user.old marked.old ≡ true }
    ensures turned_by { TurnedBy input.old.source
        (run_of words.old bitmap.old kernel.old user.old marked.old records.old
        input.old out.old Going)
        input.new.source
        (run_of words.new bitmap.new kernel.new user.new marked.new records.new
        input.new out.new (stage_of_turn result))
        (R.remaining reader.old) (R.remaining reader.new)
        (W.contents writer.old) (W.contents writer.new) }
    ensures marked_after { lists_fit kernel.new user.new marked.new ≡ true }
{
    let read = input.refill(reader);
    let written = writing::flush(writer, out);
    read?;
    written?;
    if input.offset() > MOST {
        return Err(RunError::TapeTooLong);
    }
    Ok(turn::play_next(words, bitmap, kernel, user, marked, records, input, out))
}

// Turn after turn until the tape ends or the run stops.
fn run_on<R: Read, W: Write>(
    reader: &mut R,
    writer: &mut W,
    words: &mut [u64; 8192],
    bitmap: &mut Marks,
    kernel: &mut KernelBytes,
    user: &mut UserBytes,
    marked: &mut MarkedBytes,
    records: &mut Records,
    input: &mut Input,
    out: &mut Output,
) -> Result<(), RunError>
    requires marked_value { lists_fit kernel.old user.old marked.old ≡ true }
    requires fresh_input { input.old ≡ record { bytes = []; offset = 0; source = Open } }
    requires fresh_out { out.old ≡ [] }
    ensures loop_end { Ran (board_of words.old bitmap.old kernel.old user.old marked.old records.old)
        (run_of words.new bitmap.new kernel.new user.new marked.new records.new
        input.new out.new (stage_of_run result)) }
    ensures loop_end_by { LoopEndBy (board_of words.old bitmap.old kernel.old user.old marked.old records.old)
        (R.remaining reader.old) (R.remaining reader.new)
        (W.contents writer.old) (W.contents writer.new)
        (run_of words.new bitmap.new kernel.new user.new marked.new records.new
        input.new out.new (stage_of_run result)) }
    ensures marked_after { lists_fit kernel.new user.new marked.new ≡ true }
{
    loop {
        let flow = advance(
            reader, writer, words, bitmap, kernel, user, marked, records, input, out,
        )?;
        if flow.is_break() {
            return Ok(());
        }
    }
}

// The end of a run: the last line, or why there is none.
fn finish<W: Write>(
    writer: &mut W,
    out: &mut Output,
    end: Result<(), RunError>,
    allocated: u64,
) -> Result<(), RunError>
    ensures ended { OnOk result (end ≡ Ok tt) }
    ensures whole { OnOk result (Appends (W.contents writer.old) (W.contents writer.new)
        (out.old ++ count_text frames_word allocated)) }
{
    match end {
        Ok(()) => writing::write_last(writer, out, allocated)?,
        Err(RunError::WriteFailed) => {}
        Err(_) => {
            let _ = writing::write(writer, out);
        }
    }
    end
}

// A whole run on a board that was started, and its end.
fn play_tape<R: Read, W: Write>(
    reader: &mut R,
    writer: &mut W,
    words: &mut [u64; 8192],
    bitmap: &mut Marks,
    kernel: &mut KernelBytes,
    user: &mut UserBytes,
    marked: &mut MarkedBytes,
    fresh: Records,
) -> Result<(), RunError>
    requires { lists_fit kernel.old user.old marked.old ≡ true }
    ensures { OnOk result (WritesKey (board_of words.old bitmap.old kernel.old user.old marked.old fresh)
        (R.remaining reader.old) (W.contents writer.old) (W.contents writer.new)) }
{
    let mut records = fresh;
    let mut input = Input::new();
    let mut out = Output::new();
    let end = run_on(
        reader,
        writer,
        words,
        bitmap,
        kernel,
        user,
        marked,
        &mut records,
        &mut input,
        &mut out,
    );
    finish(writer, &mut out, end, records.frames.allocated)
}

// The tape of a reader on a fresh board, and its key to a writer.
fn write_key<R: Read, W: Write>(reader: &mut R, writer: &mut W) -> Result<(), RunError>
    ensures { OnOk result (WritesKey first_board (R.remaining reader.old) (W.contents writer.old) (W.contents writer.new)) }
{
    let mut words = [0u64; 8192];
    let mut bitmap = [0u8; frame::MARKS_SIZE];
    let mut kernel = [0u8; vm_list::VM_SIZE];
    let mut user = [0u8; mappings::MMAP_SIZE];
    let mut marked = [0u8; cow::list::MARKED_SIZE];
    let empty = Records {
        frames: FrameAllocator::new(),
        root: Frame(0),
    };
    let started = board::start(
        &mut words,
        &mut bitmap,
        &mut kernel,
        &mut user,
        &mut marked,
        empty,
        FIRST,
        LAST,
        frame::LEVELS,
    );
    match started.answer {
        Ok(()) => play_tape(
            reader,
            writer,
            &mut words,
            &mut bitmap,
            &mut kernel,
            &mut user,
            &mut marked,
            started.records,
        ),
        Err(_) => Err(RunError::NotStarted),
    }
}

// The line that tells of an error, which has less than 64 bytes, whole in one write: other programs may write to the same place.
fn complain<M: Write>(messages: &mut M, error: RunError) {
    let mut line = InlineText::<64>::new();
    let _ = writeln!(line, "key: {error}");
    // Where this cannot be written either, nothing is left to be told.
    let _ = writing::complain(messages, line.as_str().as_bytes());
}

// The tape of a reader on a fresh board, and its key to a writer. If the whole key is not written, `messages` is told why.
pub fn run_tape<R: Read, W: Write, M: Write>(
    reader: &mut R,
    writer: &mut W,
    messages: &mut M,
) -> Result<(), RunError>
    ensures { OnOk result (WritesKey first_board (R.remaining reader.old) (W.contents writer.old) (W.contents writer.new)) }
{
    let end = write_key(reader, writer);
    if let Err(error) = end {
        complain(messages, error);
    }
    end
}

// What a program ends with: 0 where the whole key is written, else 1.
fn status(end: Result<(), RunError>) -> ExitCode
    ensures { exit_status result ≡ status_of end }
{
    match end {
        Ok(()) => ExitCode::SUCCESS,
        Err(_) => ExitCode::FAILURE,
    }
}

// The key program: the tape is standard input, the key goes to standard output, and why there is no whole key to standard error. Its status is 0 or 1, by `status` of how
// `run_tape` ended, which promises of any streams that `Ok` means a whole key: no clause can name the bytes of the process's own.
pub fn run(rt: HostRuntime) -> ExitCode
    ensures { exit_status result ≤ 1 }
{
    let end = run_tape(&mut rt.stdin(), &mut rt.stdout(), &mut rt.stderr());
    status(end)
}
