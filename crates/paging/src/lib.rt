// Page tables: the types that walks give, above the definitions of walks, mappings and the mapper's calls in specs/. The code is in `walk`, `working`, `tables` and
// `mapper`.
#![tactic(auto)]

ghost use Rattle.std.specs.Prelude.{◌≡◌};
ghost use Rattle.paging.specs.Calls.{size_of};

use address::Frame;
use answer::Refusal;
use frame::FrameAllocator;

// Where a step that may take a frame comes, beside the frame record that it leaves.
#[derive(Clone, Copy)]
pub struct Entered {
    pub walked: Result<u64, Refusal>,
    pub frames: FrameAllocator,
}

// The entry that a translation ends at: the last level's, or a large page's.
#[derive(Clone, Copy, Debug, PartialEq, Eq)]
pub enum Leaf {
    Page(u64),
    Large(u64),
}

// What a translation makes of an entry that it reads, by the number that is shown of it.
#[derive(Clone, Copy, Debug, PartialEq, Eq)]
pub enum Verdict {
    Absent = 0,
    Outside = 1,
    Followed = 2,
    LargePage = 3,
    Last = 4,
}

// An entry that a translation reads: its level, counted from the bottom, the table's frame and the index in it, the word, and the verdict.
#[derive(Clone, Copy)]
pub struct Row {
    pub level: u64,
    pub frame: Frame,
    pub index: usize,
    pub word: u64,
    pub verdict: Verdict,
}

// A large page's size, in bytes by its discriminant.
#[derive(Clone, Copy, Debug, PartialEq, Eq)]
pub enum HugePageSize {
    Size2MB = 0x20_0000,
    Size1GB = 0x4000_0000,
}

impl HugePageSize {
    pub fn size(self) -> u64
        ensures { result ≡ size_of self }
    {
        self as u64
    }

    pub fn alignment(self) -> u64
        ensures { result ≡ size_of self }
    {
        self.size()
    }
}
