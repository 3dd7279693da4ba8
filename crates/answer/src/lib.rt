// Answers: a call is met, or refused for one of document 01's reasons, which the key prints by number.
#![tactic(auto)]

ghost use Rattle.std.specs.Prelude.{◌≡◌, ℕ};
ghost use Rattle.bits.specs.Bit.{one};
ghost use Rattle.answer.specs.Numbers.{number_of, line_of};

// Why a call is refused, with document 01's numbers: the first ten by the input, the others by the state. No call answers 9.
#[derive(Clone, Copy, Debug, PartialEq, Eq)]
pub enum Refusal {
    SizeZero = 1,
    Unaligned = 2,
    TooLarge = 3,
    HugeUnaligned = 4,
    ReservedBit = 5,
    InvalidAddress = 6,
    InstructionFetch = 7,
    ProtectionViolation = 8,
    BrokenRecord = 10,
    NoFreeFrame = 11,
    AlreadyMapped = 12,
    MapPageFailed = 13,
    NotMapped = 14,
    NoRegion = 15,
    RegionNotFound = 16,
    WriteToReadOnly = 17,
    PageTableError = 18,
    TableOutside = 19,
    ListFull = 20,
}

// The numbers by the names of docs/NUMBERS.md.
pub const SIZE_ZERO: u64 = Refusal::SizeZero as u64;

pub const UNALIGNED: u64 = Refusal::Unaligned as u64;

pub const TOO_LARGE: u64 = Refusal::TooLarge as u64;

pub const HUGE_UNALIGNED: u64 = Refusal::HugeUnaligned as u64;

pub const RESERVED_BIT: u64 = Refusal::ReservedBit as u64;

pub const INVALID_ADDRESS: u64 = Refusal::InvalidAddress as u64;

pub const INSTRUCTION_FETCH: u64 = Refusal::InstructionFetch as u64;

pub const PROTECTION_VIOLATION: u64 = Refusal::ProtectionViolation as u64;

pub const BROKEN_RECORD: u64 = Refusal::BrokenRecord as u64;

pub const NO_FREE_FRAME: u64 = Refusal::NoFreeFrame as u64;

pub const ALREADY_MAPPED: u64 = Refusal::AlreadyMapped as u64;

pub const MAP_PAGE_FAILED: u64 = Refusal::MapPageFailed as u64;

pub const NOT_MAPPED: u64 = Refusal::NotMapped as u64;

pub const NO_REGION: u64 = Refusal::NoRegion as u64;

pub const REGION_NOT_FOUND: u64 = Refusal::RegionNotFound as u64;

pub const WRITE_TO_READ_ONLY: u64 = Refusal::WriteToReadOnly as u64;

pub const PAGE_TABLE_ERROR: u64 = Refusal::PageTableError as u64;

pub const OUTSIDE: u64 = Refusal::TableOutside as u64;

pub const LIST_FULL: u64 = Refusal::ListFull as u64;

impl From<Refusal> for u64 {
    ghost from_gives = { λ refusal n. n ≡ number_of refusal };

    fn from(refusal: Refusal) -> u64 {
        refusal as u64
    }
}

// What the key prints of a call: its number, 0 if met, and its value, 0 if none.
#[repr(C)]
#[derive(Clone, Copy)]
pub struct Line {
    pub number: u64,
    pub value: u64,
}

// What a met call hands back, by the number that the key prints of it.
pub trait Shown {
    ghost shown: { Self → ℕ };

    fn value(self) -> u64
        ensures { result ≡ shown self };
}

// 0, of a call that hands back nothing.
impl Shown for () {
    ghost shown = { λ _. 0 };

    fn value(self) -> u64 {
        0
    }
}

impl Shown for u64 {
    ghost shown = { λ n. n };

    fn value(self) -> u64 {
        self // a count, as it is
    }
}

impl Shown for bool {
    ghost shown = { one };

    fn value(self) -> u64 {
        u64::from(self)
    }
}

// The line of a call, whatever it hands back.
pub fn line_of<T: Shown>(answer: Result<T, Refusal>) -> Line
    ensures { result ≡ line_of T.shown answer }
{
    match answer {
        Ok(met) => Line {
            number: 0,
            value: met.value(),
        },
        Err(refusal) => Line {
            number: u64::from(refusal),
            value: 0,
        },
    }
}
