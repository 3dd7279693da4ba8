// The start of a board: the frames are lent as words, the root as its number, and the other parts as packed bytes.
ghost use Rattle.std.specs.Prelude.{◌≡◌, length};
ghost use Rattle.layout.specs.Parts.{fields_size, fields_out};
ghost use Rattle.layout.specs.Left.{left, Unchanged, no_leftovers};
ghost use Rattle.desk_faults.specs.Board.{board_parts, left_of, packed_start};

use address::Frame;
use answer::{Line, Refusal};
use board::Records;
use frame::{FrameAllocator, Marks};
use layout::parts;

// The frame record and the root that a start leaves: only a met one writes them.
fn put_records(fields: &mut [u8], root: &mut u64, a: Result<(), Refusal>, left: Records)
    requires { length fields.old ≡ fields_size }
    ensures fields_after { fields.new ≡ left_of a fields.old (fields_out left.frames) }
    ensures root_after { root.new ≡ left_of a root.old left.root.0 }
{
    match a {
        Ok(()) => {
            let frames = left.frames;
            let first = left.root;
            parts::put_fields(fields, frames);
            *root = first.0;
        }
        Err(_) => {}
    }
}

// What the record held before does not matter to a start, which is given one of no frames.
#[unsafe(no_mangle)]
pub extern "C" fn gadulnos_start_levels(
    words: &mut [u64],
    fields: &mut [u8],
    bits: &mut Marks,
    root: &mut u64,
    kernel: &mut [u8],
    user: &mut [u8],
    marked: &mut [u8],
    from: u64,
    to: u64,
    levels: u64,
) -> Line
    ensures marked_after { left result (board_parts words.new fields.new bits.new root.new
        kernel.new user.new marked.new)
        ≡ packed_start (board_parts words.old fields.old bits.old root.old
        kernel.old user.old marked.old) from to levels }
    ensures refused { Unchanged no_leftovers (board_parts words.old fields.old bits.old root.old
        kernel.old user.old marked.old)
        (left result (board_parts words.new fields.new bits.new root.new
        kernel.new user.new marked.new)) }
{
    if fields.len() != parts::FIELDS_SIZE {
        return parts::broken();
    }
    let none = Records {
        frames: FrameAllocator::new(),
        root: Frame(0),
    };
    let did = board::start(words, bits, kernel, user, marked, none, from, to, levels);
    let a = did.answer;
    let left = did.records;
    put_records(fields, root, a, left);
    answer::line_of(a)
}

// A start that names no number of levels: 4.
#[unsafe(no_mangle)]
pub extern "C" fn gadulnos_start(
    words: &mut [u64],
    fields: &mut [u8],
    bits: &mut Marks,
    root: &mut u64,
    kernel: &mut [u8],
    user: &mut [u8],
    marked: &mut [u8],
    from: u64,
    to: u64,
) -> Line
    ensures marked_after { left result (board_parts words.new fields.new bits.new root.new
        kernel.new user.new marked.new)
        ≡ packed_start (board_parts words.old fields.old bits.old root.old
        kernel.old user.old marked.old) from to 4 }
    ensures refused { Unchanged no_leftovers (board_parts words.old fields.old bits.old root.old
        kernel.old user.old marked.old)
        (left result (board_parts words.new fields.new bits.new root.new
        kernel.new user.new marked.new)) }
{
    gadulnos_start_levels(
        words,
        fields,
        bits,
        root,
        kernel,
        user,
        marked,
        from,
        to,
        frame::LEVELS,
    )
}
