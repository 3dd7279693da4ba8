// The key program's two buffers: a tape's bytes are read into one, and a key's text is written from the other.
#![tactic(auto)]

pub mod reading;
pub mod writing;

// What is known of the tape behind the bytes that are read: nothing, that it ends there, or that it cannot be read. What is done next depends on which it is:
// only an open tape is read further, and only a failed one stops the run.
#[derive(Clone, Copy, Debug, PartialEq, Eq)]
pub enum Source {
    Open,
    Closed,
    Failed,
}

// Where the reading of a tape stands in its buffer: bytes `at` up to `filled` are read and not taken yet; `offset` is the place of byte `at` on the tape.
#[derive(Clone, Copy)]
pub struct Input {
    pub at: usize,
    pub filled: usize,
    pub offset: u64,
    pub source: Source,
}
