// The board: all that is lent to a run of calls, and its start. Its lists are lent as packed bytes.
#![tactic(auto)]

ghost use Rattle.std.specs.Prelude.{◌≡◌, true, eqb, length, ◌≤◌};
ghost use Rattle.bits.specs.Bit.{both};
ghost use Rattle.vm_list.specs.Packed.{vm_size};
ghost use Rattle.mappings.specs.Packed.{mmap_size};
ghost use Rattle.cow.specs.Packed.{marked_size};
ghost use Rattle.board.specs.Board.{frame_count, may_start, start as start_of};
ghost use Rattle.board.specs.Packed.{board_bytes, board_out, board_of, BoardStands, lists_long, started_bytes, start_on};

use address::Frame;
use answer::Refusal;
use frame::{FrameAllocator, Marks};

// A board's records, beside its words, its bitmap and its lists.
#[derive(Clone, Copy)]
pub struct Records {
    pub frames: FrameAllocator,
    pub root: Frame,
}

#[derive(Clone, Copy)]
pub struct Started {
    pub answer: Result<(), Refusal>,
    pub records: Records,
}

// The whole frames from `from` up to `to`, as `init` counts them.
fn frame_count(from: u64, to: u64) -> u64
    requires { from ≤ to }
    ensures { result ≡ frame_count from to }
{
    let n = (to - from) / frame::FRAME_SIZE;
    if n > frame::MAX_FRAMES {
        return frame::MAX_FRAMES;
    }
    n
}

// Whether a board with `len` words can start: 10 or 11, before anything is written.
fn may_start(len: usize, from: u64, to: u64, levels: u64) -> Result<(), Refusal>
    ensures { result ≡ may_start len from to levels }
{
    if !frame::is_levels(levels) {
        return Err(Refusal::BrokenRecord);
    }
    if from > to {
        return Err(Refusal::BrokenRecord);
    }
    if to > frame::ADDRESS_END {
        return Err(Refusal::BrokenRecord);
    }
    let total = frame_count(from, to) as usize;
    if total * 512 > len {
        return Err(Refusal::BrokenRecord);
    }
    if total == 0 {
        return Err(Refusal::NoFreeFrame);
    }
    Ok(())
}

// Whether lists of so many bytes have their lengths.
fn are_long(kernel: usize, user: usize, marked: usize) -> bool
    ensures { result ≡ both (eqb kernel vm_size) (both (eqb user mmap_size) (eqb marked marked_size)) }
{
    if kernel != vm_list::VM_SIZE {
        return false;
    }
    if user != mappings::MMAP_SIZE {
        return false;
    }
    marked == cow::list::MARKED_SIZE
}

// The start itself, which is known to be met: of fresh frames the lowest is the first.
fn begin(
    words: &mut [u64],
    bitmap: &mut Marks,
    kernel: &mut [u8],
    user: &mut [u8],
    marked: &mut [u8],
    records: Records,
    from: u64,
    to: u64,
    levels: u64,
) -> Records
    requires levels_value { may_start (length words.old) from to levels ≡ Ok tt }
    requires records_value { lists_long (board_bytes words.old bitmap.old kernel.old user.old marked.old records) ≡ true }
    ensures result_after { board_bytes words.new bitmap.new kernel.new user.new marked.new result
        ≡ board_out (start_of (board_of words.old bitmap.old kernel.old user.old marked.old records)
        from to levels).board }
    ensures board_stands { BoardStands (board_bytes words.new bitmap.new kernel.new user.new marked.new result)
        (start_of (board_of words.old bitmap.old kernel.old user.old marked.old records) from to levels).board }
{
    let mut frames = records.frames;
    let _ = frames.init(bitmap, from, to);
    frames.levels = levels;
    let root = frames.start;
    frame::inner::mark_frame(bitmap, &mut frames, root);
    tables::zero_frame(words, 0);
    vm_list::start(kernel);
    mappings::start(user);
    cow::list::start(marked);
    Records {
        frames,
        root: Frame(root),
    }
}

// A board started anew, whatever it held before: the lowest frame is its root, the vmalloc window is one free region, and the other lists are empty.
pub fn start(
    words: &mut [u64],
    bitmap: &mut Marks,
    kernel: &mut [u8],
    user: &mut [u8],
    marked: &mut [u8],
    records: Records,
    from: u64,
    to: u64,
    levels: u64,
) -> Started
    ensures marked_after { started_bytes result words.new bitmap.new kernel.new user.new marked.new
        ≡ start_on (board_bytes words.old bitmap.old kernel.old user.old marked.old records) from to levels }
    ensures board_stands { result.answer ≡ Ok tt
        → BoardStands (board_bytes words.new bitmap.new kernel.new user.new marked.new result.records)
        (start_of (board_of words.old bitmap.old kernel.old user.old marked.old records) from to levels).board }
{
    if !are_long(kernel.len(), user.len(), marked.len()) {
        return Started {
            answer: Err(Refusal::BrokenRecord),
            records,
        };
    }
    match may_start(words.len(), from, to, levels) {
        Err(n) => Started {
            answer: Err(n),
            records,
        },
        Ok(()) => Started {
            answer: Ok(()),
            records: begin(
                words, bitmap, kernel, user, marked, records, from, to, levels,
            ),
        },
    }
}
