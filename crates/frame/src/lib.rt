// The frame allocator of frame.rs: a small record beside the bitmap words lent to it. Each call tests the record first and answers 10 if it is broken.
// The calls are methods on a record that is lent; `lent` has them as functions, and `held` for a caller that hands the record over and gets it back.
#![tactic(auto)]

pub mod held;
pub mod inner;
pub mod lent;
pub mod tallies;

ghost use Rattle.std.specs.Prelude.{◌≡◌, ◌≤◌, min, OnOk};
ghost use Rattle.bitmap.specs.Bitmap.{marks_in};
ghost use Rattle.frame.specs.Frames.{lent_frames, frames_did, RoomToCount, is_levels, unused, sound, tested, init as init_of, is_allocated, mark_allocated, allocate, deallocate};
ghost use Rattle.frame.specs.Frames.{free_frames, allocated_frames, total_frames};

use address::Frame;
use answer::Refusal;

pub const FRAME_SIZE: u64 = 4096;

// The most frames that a bitmap tracks.
pub const MAX_FRAMES: u64 = 8192;

// Frames end at most at address 2^52: the address, and the number of the frame there.
pub const ADDRESS_END: u64 = 0x10_0000_0000_0000;

pub const FRAMES_END: u64 = 0x100_0000_0000;

// The bitmap: 128 words, packed.
pub const MARKS_SIZE: usize = bitmap::BITMAP_SIZE;

pub type Marks = [u8; MARKS_SIZE];

// The levels of page tables that a board has if none are named, and the most that one has.
pub const LEVELS: u64 = 4;

pub const MOST_LEVELS: u64 = 5;

// .. and those above the last, if none are named.
pub const ABOVE_LAST: u64 = LEVELS - 1;

// The `total` frames from number `start` on, `allocated` of them marked, of a board with so many levels of page tables.
#[derive(Clone, Copy)]
pub struct FrameAllocator {
    pub start: u64,
    pub total: u64,
    pub allocated: u64,
    pub levels: u64,
}

// An answer beside the record that a call leaves, for the callers that hand it over by value.
#[derive(Clone, Copy)]
pub struct Changed {
    pub answer: Result<(), Refusal>,
    pub frames: FrameAllocator,
}

#[derive(Clone, Copy)]
pub struct Allocated {
    pub answer: Result<Frame, Refusal>,
    pub frames: FrameAllocator,
}

// What a frame that is given back was found to be.
#[derive(Clone, Copy)]
pub enum Found {
    Freed = 0,
    AlreadyFree = 1,
    NotHere = 2,
}

#[derive(Clone, Copy)]
pub struct Deallocated {
    pub answer: Result<Found, Refusal>,
    pub frames: FrameAllocator,
}

// How many frames that were given back were found to be each of the three.
#[derive(Clone, Copy)]
pub struct Tally {
    pub freed: u64,
    pub already_free: u64,
    pub not_here: u64,
}

// The record after frames were given back, beside their tally.
#[derive(Clone, Copy)]
pub struct GivenBack {
    pub found: Tally,
    pub frames: FrameAllocator,
}

// What a call that frees prints: its number, 0 if met, and its tally.
#[repr(C)]
#[derive(Clone, Copy)]
pub struct TallyLine {
    pub number: u64,
    pub freed: u64,
    pub already_free: u64,
    pub not_here: u64,
}

impl FrameAllocator {
    pub fn new() -> Self
        ensures { result ≡ unused 0 0 }
    {
        FrameAllocator {
            start: 0,
            total: 0,
            allocated: 0,
            levels: LEVELS,
        }
    }

    // Whether the record is not broken.
    pub fn is_sound(self, bitmap: &Marks) -> bool
        ensures { result ≡ sound (lent_frames bitmap.now self) }
    {
        let total = self.total;
        if total > MAX_FRAMES {
            return false;
        }
        if self.start > FRAMES_END - total {
            return false;
        }
        if !is_levels(self.levels) {
            return false;
        }
        self.allocated == bitmap::count(bitmap, total as usize) as u64
    }

    // The whole frames between two addresses, all of them free.
    #[tactic(auto, unfolding(crate::specs::Frames::init))]
    pub fn init(&mut self, bitmap: &mut Marks, from: u64, to: u64) -> Result<(), Refusal>
        ensures { frames_did result (lent_frames bitmap.new self.new) ≡ init_of (lent_frames bitmap.old self.old) from to }
    {
        if from > to || to > ADDRESS_END {
            return Err(Refusal::BrokenRecord);
        }
        bitmap::clear_all(bitmap);
        *self = FrameAllocator {
            start: from / FRAME_SIZE,
            total: std::cmp::min((to - from) / FRAME_SIZE, MAX_FRAMES),
            ..FrameAllocator::new()
        };
        Ok(())
    }

    // 10 on a broken record, for a call that may go on only on a sound one. In line: as a function of its own it cost a fifth more instructions on 16 frames (docs/LOOK-BACK.md).
    #[inline(always)]
    #[tactic(auto, unfolding(crate::specs::Frames::tested))]
    fn tested(self, bitmap: &Marks) -> Result<(), Refusal>
        ensures value { result ≡ tested (lent_frames bitmap.now self) }
        ensures room { OnOk result (RoomToCount self 1) }
        ensures fits { OnOk result (self.allocated ≤ self.total) }
    {
        if self.is_sound(bitmap) {
            Ok(())
        } else {
            Err(Refusal::BrokenRecord)
        }
    }

    #[tactic(auto, unfolding(crate::specs::Frames::tested, crate::specs::Frames::is_allocated))]
    pub fn is_allocated(&self, bitmap: &Marks, number: u64) -> Result<bool, Refusal>
        ensures { result ≡ is_allocated (lent_frames bitmap.now self.now) number }
    {
        self.tested(bitmap)?;
        Ok(inner::frame_marked(bitmap, *self, number))
    }

    #[tactic(auto, unfolding(crate::specs::Frames::tested, crate::specs::Frames::mark_allocated))]
    pub fn mark_allocated(&mut self, bitmap: &mut Marks, number: u64) -> Result<(), Refusal>
        ensures { frames_did result (lent_frames bitmap.new self.new) ≡ mark_allocated (lent_frames bitmap.old self.old) number }
    {
        self.tested(bitmap)?;
        inner::mark_frame(bitmap, self, number);
        Ok(())
    }

    #[tactic(auto, unfolding(crate::specs::Frames::tested, crate::specs::Frames::allocate))]
    pub fn allocate_frame(&mut self, bitmap: &mut Marks) -> Result<Frame, Refusal>
        ensures { frames_did result (lent_frames bitmap.new self.new) ≡ allocate (lent_frames bitmap.old self.old) }
    {
        self.tested(bitmap)?;
        inner::take_frame(bitmap, self)
    }

    #[tactic(auto, unfolding(crate::specs::Frames::tested, crate::specs::Frames::deallocate))]
    pub fn deallocate_frame(&mut self, bitmap: &mut Marks, frame: Frame) -> Result<Found, Refusal>
        ensures { frames_did result (lent_frames bitmap.new self.new) ≡ deallocate (lent_frames bitmap.old self.old) frame.0 }
    {
        self.tested(bitmap)?;
        Ok(inner::give_frame(bitmap, self, frame))
    }

    #[tactic(auto, unfolding(crate::specs::Frames::tested, crate::specs::Frames::counted))]
    pub fn free_frames(&self, bitmap: &Marks) -> Result<u64, Refusal>
        ensures { result ≡ free_frames (lent_frames bitmap.now self.now) }
    {
        self.tested(bitmap)?;
        Ok(self.total - self.allocated)
    }

    #[tactic(auto, unfolding(crate::specs::Frames::tested, crate::specs::Frames::counted))]
    pub fn allocated_frames(&self, bitmap: &Marks) -> Result<u64, Refusal>
        ensures { result ≡ allocated_frames (lent_frames bitmap.now self.now) }
    {
        self.tested(bitmap)?;
        Ok(self.allocated)
    }

    #[tactic(auto, unfolding(crate::specs::Frames::tested, crate::specs::Frames::counted))]
    pub fn total_frames(&self, bitmap: &Marks) -> Result<u64, Refusal>
        ensures { result ≡ total_frames (lent_frames bitmap.now self.now) }
    {
        self.tested(bitmap)?;
        Ok(self.total)
    }
}

// Whether a board may have n levels of page tables.
pub fn is_levels(n: u64) -> bool
    ensures { result ≡ is_levels n }
{
    (LEVELS..=MOST_LEVELS).contains(&n)
}
