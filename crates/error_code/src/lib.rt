// A page fault's error code: bits 0 to 4; those above are ignored.
#![tactic(auto)]

ghost use Rattle.std.specs.Prelude.{◌≡◌};
ghost use Rattle.error_code.specs.ErrorCode.{is_present, is_write, is_user, is_reserved, is_fetch, denied as denied_by};

use answer::Refusal;

// A code stays the plain number that the C interface lends (`gadulnos_handle_page_fault`): bits above 4 may be set and are ignored, so that no enum holds it.
// 0: the page was not present. 1: access to it was denied.
pub const PRESENT: u64 = 1 << 0;

pub const WRITE: u64 = 1 << 1;

pub const USER: u64 = 1 << 2;

// A reserved bit was set in an entry.
pub const RESERVED: u64 = 1 << 3;

// An instruction was fetched.
pub const INSTRUCTION: u64 = 1 << 4;

pub fn is_present(code: u64) -> bool
    ensures { result ≡ is_present code }
{
    (code & PRESENT) != 0
}

pub fn is_write(code: u64) -> bool
    ensures { result ≡ is_write code }
{
    (code & WRITE) != 0
}

pub fn is_user(code: u64) -> bool
    ensures { result ≡ is_user code }
{
    (code & USER) != 0
}

pub fn is_reserved(code: u64) -> bool
    ensures { result ≡ is_reserved code }
{
    (code & RESERVED) != 0
}

pub fn is_fetch(code: u64) -> bool
    ensures { result ≡ is_fetch code }
{
    (code & INSTRUCTION) != 0
}

// The refusal of access that was denied to a page, other than a write.
pub fn denied(code: u64) -> Refusal
    ensures { result ≡ denied_by code }
{
    if is_fetch(code) {
        return Refusal::InstructionFetch;
    }
    Refusal::ProtectionViolation
}
