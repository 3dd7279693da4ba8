// Steps on a record that was tested: callers that take or give many frames test it once.
ghost use Rattle.std.specs.Prelude.{true, IfOk, ◌≡◌, ◌+◌, ◌-◌, ◌^◌, ◌<◌, ◌≤◌};
ghost use Rattle.bitmap.specs.Bitmap.{marked, marks_in};
ghost use Rattle.frame.specs.Frames.{lent_frames, frames_did, inside, with_mark, RoomToCount, frame_marked, mark_frame, take_frame, give_frame};
ghost use Rattle.frame.specs.Found.{one_found};

use crate::{Found, FrameAllocator, Marks, Tally, tallies};
use address::Frame;
use answer::Refusal;

// Whether frame `number` is one of the `total` from `start` on: one comparison, since a difference that wraps is at least `total`.
pub fn is_inside(start: u64, total: u64, number: u64) -> bool
    requires { start + total ≤ 2 ^ 64 }
    ensures { result ≡ inside start total number }
{
    std::num::wrapping_sub_u64(number, start) < total
}

pub fn frame_marked(bitmap: &Marks, frames: FrameAllocator, number: u64) -> bool
    requires { RoomToCount frames 0 }
    ensures { result ≡ frame_marked (lent_frames bitmap.now frames) number }
{
    if !is_inside(frames.start, frames.total, number) {
        return true;
    }
    bitmap::is_marked(bitmap, (number - frames.start) as usize)
}

// The free frame at slot i, marked and counted.
#[tactic(auto, unfolding(crate::specs::Frames::with_mark))]
fn mark_slot(bitmap: &mut Marks, frames: &mut FrameAllocator, i: usize)
    requires i_bound { i < 8192 }
    requires i_value { marked (marks_in bitmap.old) i ≡ 0 }
    requires room_to_count { RoomToCount frames.old 1 }
    ensures { lent_frames bitmap.new frames.new ≡ with_mark (lent_frames bitmap.old frames.old) i }
{
    bitmap::mark(bitmap, i);
    frames.allocated += 1;
}

#[tactic(auto, unfolding(crate::specs::Frames::mark_frame, crate::specs::Frames::frame_marked))]
pub fn mark_frame(bitmap: &mut Marks, frames: &mut FrameAllocator, number: u64)
    requires { RoomToCount frames.old 1 }
    ensures { lent_frames bitmap.new frames.new ≡ mark_frame (lent_frames bitmap.old frames.old) number }
{
    if !frame_marked(bitmap, *frames, number) {
        let i = number - frames.start;
        mark_slot(bitmap, frames, i as usize);
    }
}

#[tactic(auto, unfolding(crate::specs::Frames::take_frame))]
pub fn take_frame(bitmap: &mut Marks, frames: &mut FrameAllocator) -> Result<Frame, Refusal>
    requires { RoomToCount frames.old 1 }
    ensures taken { frames_did result (lent_frames bitmap.new frames.new) ≡ take_frame (lent_frames bitmap.old frames.old) }
    ensures lent { IfOk result (λ f. inside frames.old.start frames.old.total f.0 ≡ true) }
{
    let Some(i) = bitmap::lowest_free(bitmap, frames.total as usize) else {
        return Err(Refusal::NoFreeFrame);
    };
    let taken = Frame(frames.start + i as u64);
    mark_slot(bitmap, frames, i);
    Ok(taken)
}

#[tactic(auto, unfolding(crate::specs::Frames::give_frame, crate::specs::Frames::without_mark))]
pub fn give_frame(bitmap: &mut Marks, frames: &mut FrameAllocator, frame: Frame) -> Found
    requires { RoomToCount frames.old 0 }
    ensures { frames_did result (lent_frames bitmap.new frames.new) ≡ give_frame (lent_frames bitmap.old frames.old) frame.0 }
{
    if !is_inside(frames.start, frames.total, frame.0) {
        return Found::NotHere;
    }
    let i = (frame.0 - frames.start) as usize;
    if !bitmap::is_marked(bitmap, i) {
        return Found::AlreadyFree;
    }
    bitmap::unmark(bitmap, i);
    frames.allocated = frames.allocated.saturating_sub(1);
    Found::Freed
}

// The same, with the tally of one frame.
pub fn give_back(bitmap: &mut Marks, frames: &mut FrameAllocator, frame: Frame) -> Tally
    requires { RoomToCount frames.old 0 }
    ensures frames_after { lent_frames bitmap.new frames.new ≡ (give_frame (lent_frames bitmap.old frames.old) frame.0).frames }
    ensures found_value { result ≡ one_found (give_frame (lent_frames bitmap.old frames.old) frame.0).answer }
{
    tallies::one(give_frame(bitmap, frames, frame))
}
