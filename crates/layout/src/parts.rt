// The frame record, taken out of packed bytes and put back.
ghost use Rattle.answer.specs.declared.Refusal.TheVariants.{BrokenRecord};
ghost use Rattle.std.specs.Prelude.{◌≡◌, length};
ghost use Rattle.answer.specs.Numbers.{answer_line};
ghost use Rattle.frame.specs.Found.{tally_line, none_found};
ghost use Rattle.layout.specs.Parts.{fields_size, fields_in, fields_out};

use answer::{Line, Refusal};
use frame::{FrameAllocator, TallyLine, tallies};

pub const FIELDS_SIZE: usize = 32;

// What is told of parts that stand for no record.
pub fn broken() -> Line
    ensures { result ≡ answer_line (Err BrokenRecord) }
{
    answer::line_of::<()>(Err(Refusal::BrokenRecord))
}

// .. by a call that frees.
pub fn broken_tally() -> TallyLine
    ensures { result ≡ tally_line (Err BrokenRecord) none_found }
{
    tallies::tally_line(Err(Refusal::BrokenRecord), tallies::none())
}

pub fn get_fields(fields: &[u8]) -> FrameAllocator
    requires { length fields.now ≡ fields_size }
    ensures { result ≡ fields_in fields.now }
{
    FrameAllocator {
        start: packed::word_at(fields, 0),
        total: packed::word_at(fields, 8),
        allocated: packed::word_at(fields, 16),
        levels: packed::word_at(fields, 24),
    }
}

pub fn put_fields(fields: &mut [u8], frames: FrameAllocator)
    requires { length fields.old ≡ fields_size }
    ensures { fields.new ≡ fields_out frames }
{
    let numbers = [frames.start, frames.total, frames.allocated, frames.levels];
    packed::put_words(fields, &numbers);
}
