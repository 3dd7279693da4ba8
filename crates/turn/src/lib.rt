// One step of a run of the key program: the next call of the tape, played on the board, and its line put.
#![tactic(auto)]

ghost use Rattle.std.specs.Prelude.{◌≡◌, true, ◌+◌, ◌≤◌, length};
ghost use Rattle.board.specs.Packed.{lists_fit};
ghost use Rattle.turn.specs.Run.{Stage, step, stage_behind, run_of};

use board::Records;
use frame::Marks;
use std::ops::ControlFlow;
use streams::reading::Input;
use streams::writing::Output;
use tape::Malformed;

// The bytes of the three lists.
pub type KernelBytes = [u8; vm_list::VM_SIZE];

pub type UserBytes = [u8; mappings::MMAP_SIZE];

pub type MarkedBytes = [u8; cow::list::MARKED_SIZE];

// The next call of the tape, played, and its line put; or the end of the run, with `tape` and an offset where bytes are no call.
pub fn play_next(
    words: &mut [u64],
    bitmap: &mut Marks,
    kernel: &mut KernelBytes,
    user: &mut UserBytes,
    marked: &mut MarkedBytes,
    records: &mut Records,
    input: &mut Input,
    out: &mut Output,
) -> ControlFlow<()>
    requires offset_bound { input.old.offset ≤ 9223372036854775808 }
    requires room { length out.old + 64 ≤ 65536 }
    requires marked_value { lists_fit kernel.old user.old marked.old ≡ true }
    ensures result_after { (s : Stage) → run_of words.new bitmap.new kernel.new user.new marked.new records.new
        input.new out.new (stage_behind result)
        ≡ step (run_of words.old bitmap.old kernel.old user.old marked.old records.old
        input.old out.old s) }
    ensures source_value { input.new.source ≡ input.old.source }
    ensures marked_after { lists_fit kernel.new user.new marked.new ≡ true }
{
    match input.next() {
        Ok(None) => ControlFlow::Break(()),
        Err(Malformed) => {
            out.put_count(b"tape", input.offset());
            ControlFlow::Break(())
        }
        Ok(Some(call)) => {
            let played = player::play(words, bitmap, kernel, user, marked, *records, call);
            *records = played.records;
            input.take(call.size());
            out.put_line(u64::from(played.kind.number()), played.line);
            ControlFlow::Continue(())
        }
    }
}
