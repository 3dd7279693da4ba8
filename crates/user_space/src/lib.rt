// What the calls on the user's memory mappings are lent: words and frames with the root, and the list as packed bytes; and the flags that they read of `prot` and `flags`.
#![tactic(auto)]

ghost use Rattle.std.specs.Prelude.{◌≡◌};
ghost use Rattle.bits.specs.Bit.{both};
ghost use Rattle.mappings.specs.Packed.{mmap_fit};
ghost use Rattle.user_space.specs.Flags.{writable, fixed};
ghost use Rattle.user_space.specs.User.{sound_user};
ghost use Rattle.user_space.specs.Packed.{lent_user};

use address::Frame;
use frame::{FrameAllocator, Marks};

// The flags of mmap and mprotect stay plain numbers: the C interface takes them as `int`, any bits set.
pub const PROT_READ: i32 = 0x1;

pub const PROT_WRITE: i32 = 0x2;

pub const PROT_EXEC: i32 = 0x4;

pub const PROT_NONE: i32 = 0x0;

pub const MAP_SHARED: i32 = 0x01;

pub const MAP_PRIVATE: i32 = 0x02;

pub const MAP_FIXED: i32 = 0x10;

pub const MAP_ANONYMOUS: i32 = 0x20;

pub fn is_writable(prot: i32) -> bool
    ensures { result ≡ writable prot }
{
    prot & PROT_WRITE != 0
}

pub fn is_fixed(flags: i32) -> bool
    ensures { result ≡ fixed flags }
{
    flags & MAP_FIXED != 0
}

// Whether nothing that is lent is broken.
pub fn is_whole(
    words: &[u64],
    bitmap: &Marks,
    frames: FrameAllocator,
    root: Frame,
    list: &[u8],
) -> bool
    ensures { result ≡ both (mmap_fit list.now)
        (sound_user (lent_user words.now bitmap.now frames list.now) root.0) }
{
    if !mapper::is_whole(words, bitmap, frames, root) {
        return false;
    }
    mappings::list::is_sound(list)
}
