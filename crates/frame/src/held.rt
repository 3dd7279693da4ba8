// The same calls for a caller that holds the record: it is handed to the call and comes back with the answer.
ghost use Rattle.std.specs.Prelude.{◌≡◌};
ghost use Rattle.bitmap.specs.Bitmap.{marks_in};
ghost use Rattle.frame.specs.Frames.{lent_frames, init as init_of, is_allocated, mark_allocated, allocate, deallocate, free_frames, allocated_frames, total_frames};
ghost use Rattle.frame.specs.Results.{changed, allocated as allocated_of, deallocated as deallocated_of};

use crate::{Allocated, Changed, Deallocated, FrameAllocator, Marks, lent};
use address::Frame;
use answer::Refusal;

pub fn init(frames: FrameAllocator, bitmap: &mut Marks, from: u64, to: u64) -> Changed
    ensures value { result ≡ changed (init_of (lent_frames bitmap.old frames) from to) }
    ensures bitmap_after { marks_in bitmap.new ≡ (init_of (lent_frames bitmap.old frames) from to).frames.bits }
{
    let mut fa = frames;
    let answer = lent::init(&mut fa, bitmap, from, to);
    Changed { answer, frames: fa }
}

pub fn mark_allocated(frames: FrameAllocator, bitmap: &mut Marks, number: u64) -> Changed
    ensures value { result ≡ changed (mark_allocated (lent_frames bitmap.old frames) number) }
    ensures bitmap_after { marks_in bitmap.new ≡ (mark_allocated (lent_frames bitmap.old frames) number).frames.bits }
{
    let mut fa = frames;
    let answer = lent::mark_allocated(&mut fa, bitmap, number);
    Changed { answer, frames: fa }
}

pub fn allocate_frame(frames: FrameAllocator, bitmap: &mut Marks) -> Allocated
    ensures value { result ≡ allocated_of (allocate (lent_frames bitmap.old frames)) }
    ensures bitmap_after { marks_in bitmap.new ≡ (allocate (lent_frames bitmap.old frames)).frames.bits }
{
    let mut fa = frames;
    let answer = lent::allocate_frame(&mut fa, bitmap);
    Allocated { answer, frames: fa }
}

pub fn deallocate_frame(frames: FrameAllocator, bitmap: &mut Marks, frame: Frame) -> Deallocated
    ensures value { result ≡ deallocated_of (deallocate (lent_frames bitmap.old frames) frame.0) }
    ensures bitmap_after { marks_in bitmap.new ≡ (deallocate (lent_frames bitmap.old frames) frame.0).frames.bits }
{
    let mut fa = frames;
    let answer = lent::deallocate_frame(&mut fa, bitmap, frame);
    Deallocated { answer, frames: fa }
}

pub fn is_allocated(frames: FrameAllocator, bitmap: &Marks, number: u64) -> Result<bool, Refusal>
    ensures { result ≡ is_allocated (lent_frames bitmap.now frames) number }
{
    lent::is_allocated(&frames, bitmap, number)
}

pub fn free_frames(frames: FrameAllocator, bitmap: &Marks) -> Result<u64, Refusal>
    ensures { result ≡ free_frames (lent_frames bitmap.now frames) }
{
    lent::free_frames(&frames, bitmap)
}

pub fn allocated_frames(frames: FrameAllocator, bitmap: &Marks) -> Result<u64, Refusal>
    ensures { result ≡ allocated_frames (lent_frames bitmap.now frames) }
{
    lent::allocated_frames(&frames, bitmap)
}

pub fn total_frames(frames: FrameAllocator, bitmap: &Marks) -> Result<u64, Refusal>
    ensures { result ≡ total_frames (lent_frames bitmap.now frames) }
{
    lent::total_frames(&frames, bitmap)
}
