// The frame allocator's calls: the record and the bitmap are packed bytes.
ghost use Rattle.std.specs.Prelude.{◌≡◌};
ghost use Rattle.layout.specs.Left.{left, Unchanged, no_leftovers};
ghost use Rattle.desk_memory.specs.Memory.{frames_parts, packed_init, packed_is_allocated, packed_mark, packed_allocate, packed_deallocate};
ghost use Rattle.desk_memory.specs.Memory.{packed_free_frames, packed_allocated_frames, packed_total_frames};

use address::Frame;
use answer::Line;
use frame::Marks;
use layout::parts;

#[unsafe(no_mangle)]
pub extern "C" fn gadulnos_init(fields: &mut [u8], bits: &mut Marks, from: u64, to: u64) -> Line
    ensures bits_after { left result (frames_parts fields.new bits.new)
        ≡ packed_init (frames_parts fields.old bits.old) from to }
    ensures refused { Unchanged no_leftovers (frames_parts fields.old bits.old)
        (left result (frames_parts fields.new bits.new)) }
{
    if fields.len() != parts::FIELDS_SIZE {
        return parts::broken();
    }
    let mut frames = parts::get_fields(fields);
    let answer = frames.init(bits, from, to);
    parts::put_fields(fields, frames);
    answer::line_of(answer)
}

#[unsafe(no_mangle)]
pub extern "C" fn gadulnos_is_allocated(fields: &[u8], bits: &Marks, number: u64) -> Line
    ensures { result ≡ packed_is_allocated (frames_parts fields.now bits.now) number }
{
    if fields.len() != parts::FIELDS_SIZE {
        return parts::broken();
    }
    answer::line_of(parts::get_fields(fields).is_allocated(bits, number))
}

#[unsafe(no_mangle)]
pub extern "C" fn gadulnos_mark_allocated(fields: &mut [u8], bits: &mut Marks, number: u64) -> Line
    ensures bits_after { left result (frames_parts fields.new bits.new)
        ≡ packed_mark (frames_parts fields.old bits.old) number }
    ensures refused { Unchanged no_leftovers (frames_parts fields.old bits.old)
        (left result (frames_parts fields.new bits.new)) }
{
    if fields.len() != parts::FIELDS_SIZE {
        return parts::broken();
    }
    let mut frames = parts::get_fields(fields);
    let answer = frames.mark_allocated(bits, number);
    parts::put_fields(fields, frames);
    answer::line_of(answer)
}

#[unsafe(no_mangle)]
pub extern "C" fn gadulnos_allocate_frame(fields: &mut [u8], bits: &mut Marks) -> Line
    ensures bits_after { left result (frames_parts fields.new bits.new)
        ≡ packed_allocate (frames_parts fields.old bits.old) }
    ensures refused { Unchanged no_leftovers (frames_parts fields.old bits.old)
        (left result (frames_parts fields.new bits.new)) }
{
    if fields.len() != parts::FIELDS_SIZE {
        return parts::broken();
    }
    let mut frames = parts::get_fields(fields);
    let answer = frames.allocate_frame(bits);
    parts::put_fields(fields, frames);
    answer::line_of(answer)
}

#[unsafe(no_mangle)]
pub extern "C" fn gadulnos_deallocate_frame(
    fields: &mut [u8],
    bits: &mut Marks,
    number: u64,
) -> Line
    ensures bits_after { left result (frames_parts fields.new bits.new)
        ≡ packed_deallocate (frames_parts fields.old bits.old) number }
    ensures refused { Unchanged no_leftovers (frames_parts fields.old bits.old)
        (left result (frames_parts fields.new bits.new)) }
{
    if fields.len() != parts::FIELDS_SIZE {
        return parts::broken();
    }
    let mut frames = parts::get_fields(fields);
    let answer = frames.deallocate_frame(bits, Frame(number));
    parts::put_fields(fields, frames);
    answer::line_of(answer)
}

#[unsafe(no_mangle)]
pub extern "C" fn gadulnos_free_frames(fields: &[u8], bits: &Marks) -> Line
    ensures { result ≡ packed_free_frames (frames_parts fields.now bits.now) }
{
    if fields.len() != parts::FIELDS_SIZE {
        return parts::broken();
    }
    answer::line_of(parts::get_fields(fields).free_frames(bits))
}

#[unsafe(no_mangle)]
pub extern "C" fn gadulnos_allocated_frames(fields: &[u8], bits: &Marks) -> Line
    ensures { result ≡ packed_allocated_frames (frames_parts fields.now bits.now) }
{
    if fields.len() != parts::FIELDS_SIZE {
        return parts::broken();
    }
    answer::line_of(parts::get_fields(fields).allocated_frames(bits))
}

#[unsafe(no_mangle)]
pub extern "C" fn gadulnos_total_frames(fields: &[u8], bits: &Marks) -> Line
    ensures { result ≡ packed_total_frames (frames_parts fields.now bits.now) }
{
    if fields.len() != parts::FIELDS_SIZE {
        return parts::broken();
    }
    answer::line_of(parts::get_fields(fields).total_frames(bits))
}
