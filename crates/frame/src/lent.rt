// The calls as functions on a record that is lent beside its bitmap: the methods by the names that docs/API.md gives.
ghost use Rattle.std.specs.Prelude.{◌≡◌};
ghost use Rattle.frame.specs.Frames.{lent_frames, frames_did, init as init_of, is_allocated, mark_allocated, allocate, deallocate, free_frames, allocated_frames, total_frames};

use crate::{Found, FrameAllocator, Marks};
use address::Frame;
use answer::Refusal;

pub fn init(fa: &mut FrameAllocator, bitmap: &mut Marks, from: u64, to: u64) -> Result<(), Refusal>
    ensures { frames_did result (lent_frames bitmap.new fa.new)
        ≡ init_of (lent_frames bitmap.old fa.old) from to }
{
    fa.init(bitmap, from, to)
}

pub fn mark_allocated(
    fa: &mut FrameAllocator,
    bitmap: &mut Marks,
    number: u64,
) -> Result<(), Refusal>
    ensures { frames_did result (lent_frames bitmap.new fa.new)
        ≡ mark_allocated (lent_frames bitmap.old fa.old) number }
{
    fa.mark_allocated(bitmap, number)
}

pub fn allocate_frame(fa: &mut FrameAllocator, bitmap: &mut Marks) -> Result<Frame, Refusal>
    ensures { frames_did result (lent_frames bitmap.new fa.new) ≡ allocate (lent_frames bitmap.old fa.old) }
{
    fa.allocate_frame(bitmap)
}

pub fn deallocate_frame(
    fa: &mut FrameAllocator,
    bitmap: &mut Marks,
    frame: Frame,
) -> Result<Found, Refusal>
    ensures { frames_did result (lent_frames bitmap.new fa.new)
        ≡ deallocate (lent_frames bitmap.old fa.old) frame.0 }
{
    fa.deallocate_frame(bitmap, frame)
}

pub fn is_allocated(fa: &FrameAllocator, bitmap: &Marks, number: u64) -> Result<bool, Refusal>
    ensures { result ≡ is_allocated (lent_frames bitmap.now fa.now) number }
{
    fa.is_allocated(bitmap, number)
}

pub fn free_frames(fa: &FrameAllocator, bitmap: &Marks) -> Result<u64, Refusal>
    ensures { result ≡ free_frames (lent_frames bitmap.now fa.now) }
{
    fa.free_frames(bitmap)
}

pub fn allocated_frames(fa: &FrameAllocator, bitmap: &Marks) -> Result<u64, Refusal>
    ensures { result ≡ allocated_frames (lent_frames bitmap.now fa.now) }
{
    fa.allocated_frames(bitmap)
}

pub fn total_frames(fa: &FrameAllocator, bitmap: &Marks) -> Result<u64, Refusal>
    ensures { result ≡ total_frames (lent_frames bitmap.now fa.now) }
{
    fa.total_frames(bitmap)
}
