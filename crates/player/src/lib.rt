// A call of a tape played on a board, with the line that the key prints of it.
#![tactic(auto)]

ghost use Rattle.std.specs.Prelude.{◌≡◌, true, List, ℕ};
ghost use Rattle.vm_list.specs.Packed.{vm_fit};
ghost use Rattle.mappings.specs.Packed.{mmap_fit};
ghost use Rattle.cow.specs.Packed.{marked_fit};
ghost use Rattle.board.specs.Packed.{board_of, lists_fit};
ghost use Rattle.tape.specs.declared.Call.{Call};
ghost use Rattle.tape.specs.Kinds.{number_of};
ghost use Rattle.player.specs.Play.{turn, play as play_of};

use address::VirtAddr;
use answer::Line;
use board::Records;
use frame::Marks;
use tape::{Call, FaultCall, Kind, MmapCall, MunmapCall};

// What a call prints, and the records that it leaves.
#[derive(Clone, Copy)]
pub struct Played {
    pub kind: Kind,
    pub line: Line,
    pub records: Records,
}

fn play_vmalloc(
    words: &mut [u64],
    bitmap: &mut Marks,
    kernel: &mut [u8],
    records: Records,
    size: u64,
) -> Played
    requires { vm_fit kernel.old ≡ true }
    ensures by_index { (u m : List ℕ)
        → turn (number_of result.kind) result.line (board_of words.new bitmap.new kernel.new u m result.records)
        ≡ play_of (board_of words.old bitmap.old kernel.old u m records) (Call.Vmalloc size) }
    ensures kernel_after { vm_fit kernel.new ≡ true }
{
    let frames = records.frames;
    let root = records.root;
    let did = vmalloc::vmalloc(words, bitmap, frames, root, kernel, size);
    let a = did.answer;
    let left = did.frames;
    Played {
        kind: Kind::Vmalloc,
        line: answer::line_of(a),
        records: Records { frames: left, root },
    }
}

fn play_vfree(
    words: &mut [u64],
    bitmap: &mut Marks,
    kernel: &mut [u8],
    records: Records,
    addr: u64,
) -> Played
    requires { vm_fit kernel.old ≡ true }
    ensures by_index { (u m : List ℕ)
        → turn (number_of result.kind) result.line (board_of words.new bitmap.new kernel.new u m result.records)
        ≡ play_of (board_of words.old bitmap.old kernel.old u m records) (Call.Vfree addr) }
    ensures kernel_after { vm_fit kernel.new ≡ true }
{
    let frames = records.frames;
    let root = records.root;
    let did = vmalloc::vfree(words, bitmap, frames, root, kernel, VirtAddr(addr));
    let a = did.answer;
    let left = did.frames;
    Played {
        kind: Kind::Vfree,
        line: answer::line_of(a),
        records: Records { frames: left, root },
    }
}

fn play_mmap(
    words: &mut [u64],
    bitmap: &mut Marks,
    user: &mut [u8],
    records: Records,
    c: MmapCall,
) -> Played
    requires { mmap_fit user.old ≡ true }
    ensures by_index { (k m : List ℕ)
        → turn (number_of result.kind) result.line (board_of words.new bitmap.new k user.new m result.records)
        ≡ play_of (board_of words.old bitmap.old k user.old m records) (Call.Mmap c) }
    ensures user_after { mmap_fit user.new ≡ true }
{
    let frames = records.frames;
    let root = records.root;
    let did = mmap::mmap(
        words, bitmap, frames, root, user, c.addr, c.size, c.prot, c.flags,
    );
    let a = did.answer;
    let left = did.frames;
    Played {
        kind: Kind::Mmap,
        line: answer::line_of(a),
        records: Records { frames: left, root },
    }
}

fn play_munmap(
    words: &mut [u64],
    bitmap: &mut Marks,
    user: &mut [u8],
    records: Records,
    c: MunmapCall,
) -> Played
    requires { mmap_fit user.old ≡ true }
    ensures by_index { (k m : List ℕ)
        → turn (number_of result.kind) result.line (board_of words.new bitmap.new k user.new m result.records)
        ≡ play_of (board_of words.old bitmap.old k user.old m records) (Call.Munmap c) }
    ensures user_after { mmap_fit user.new ≡ true }
{
    let frames = records.frames;
    let root = records.root;
    let did = munmap::munmap(words, bitmap, frames, root, user, VirtAddr(c.addr), c.size);
    let a = did.answer;
    let left = did.frames;
    Played {
        kind: Kind::Munmap,
        line: answer::line_of(a),
        records: Records { frames: left, root },
    }
}

fn play_fault(
    words: &mut [u64],
    bitmap: &mut Marks,
    marked: &mut [u8],
    records: Records,
    c: FaultCall,
) -> Played
    requires { marked_fit marked.old ≡ true }
    ensures by_index { (k u : List ℕ)
        → turn (number_of result.kind) result.line (board_of words.new bitmap.new k u marked.new result.records)
        ≡ play_of (board_of words.old bitmap.old k u marked.old records) (Call.Fault c) }
    ensures marked_after { marked_fit marked.new ≡ true }
{
    let frames = records.frames;
    let root = records.root;
    let did = fault::handle_page_fault(
        words,
        bitmap,
        frames,
        root,
        marked,
        VirtAddr(c.addr),
        c.code,
    );
    let a = did.answer;
    let left = did.frames;
    Played {
        kind: Kind::Fault,
        line: answer::line_of(a),
        records: Records { frames: left, root },
    }
}

fn play_translate(words: &[u64], records: Records, addr: u64) -> Played
    ensures { (b k u m : List ℕ) → turn (number_of result.kind) result.line (board_of words.now b k u m result.records)
        ≡ play_of (board_of words.now b k u m records) (Call.Translate addr) }
{
    let frames = records.frames;
    let root = records.root;
    let a = walk::translate(
        words,
        frames.start,
        frames.total,
        frames.levels,
        root,
        VirtAddr(addr),
    );
    Played {
        kind: Kind::Translate,
        line: answer::line_of(a),
        records,
    }
}

// One call, with the line that the key prints of it.
pub fn play(
    words: &mut [u64],
    bitmap: &mut Marks,
    kernel: &mut [u8],
    user: &mut [u8],
    marked: &mut [u8],
    records: Records,
    call: Call,
) -> Played
    requires { lists_fit kernel.old user.old marked.old ≡ true }
    ensures records_after { turn (number_of result.kind) result.line
        (board_of words.new bitmap.new kernel.new user.new marked.new result.records)
        ≡ play_of (board_of words.old bitmap.old kernel.old user.old marked.old records) call }
    ensures marked_after { lists_fit kernel.new user.new marked.new ≡ true }
{
    match call {
        Call::Vmalloc(size) => play_vmalloc(words, bitmap, kernel, records, size),
        Call::Vfree(addr) => play_vfree(words, bitmap, kernel, records, addr),
        Call::Mmap(c) => play_mmap(words, bitmap, user, records, c),
        Call::Munmap(c) => play_munmap(words, bitmap, user, records, c),
        Call::Fault(c) => play_fault(words, bitmap, marked, records, c),
        Call::Translate(addr) => play_translate(words, records, addr),
    }
}
