// The key program's tape: calls read from bytes, and the lines that are printed of them.
#![tactic(auto)]

ghost use Rattle.std.specs.Prelude.{◌≡◌};
ghost use Rattle.tape.specs.Tape.{body_size, kind_of, call_size};
ghost use Rattle.tape.specs.Kinds.{number_of, Decodes};

pub mod read;
pub mod text;

// The kind of a call, by the byte that it begins with on a tape.
#[derive(Clone, Copy, Debug, PartialEq, Eq)]
pub enum Kind {
    Vmalloc = 1,
    Vfree = 2,
    Mmap = 3,
    Munmap = 4,
    Fault = 5,
    Translate = 6,
}

// Bytes that are no call: of an unknown kind, with a short body, or with another first byte than 0 or 1 in an mmap.
#[derive(Clone, Copy, Debug, PartialEq, Eq)]
pub struct Malformed;

impl TryFrom<u8> for Kind {
    type Error = Malformed;

    ghost try_from_gives = { Decodes };

    fn try_from(byte: u8) -> Result<Self, Malformed> {
        match byte {
            1 => Ok(Kind::Vmalloc),
            2 => Ok(Kind::Vfree),
            3 => Ok(Kind::Mmap),
            4 => Ok(Kind::Munmap),
            5 => Ok(Kind::Fault),
            6 => Ok(Kind::Translate),
            _ => Err(Malformed),
        }
    }
}

impl Kind {
    // The kind's number, as the tape and the key have it.
    pub fn number(self) -> u8
        ensures { result ≡ number_of self }
    {
        self as u8
    }

    // The bytes of the body of a call of this kind.
    pub fn body_size(self) -> usize
        ensures { result ≡ body_size (number_of self) }
    {
        match self {
            Kind::Vmalloc | Kind::Vfree | Kind::Translate => 8,
            Kind::Munmap | Kind::Fault => 16,
            Kind::Mmap => 25,
        }
    }
}

// A call of the tape: 'one kind byte, then a body, little-endian'.
#[derive(Clone, Copy, Debug, PartialEq, Eq)]
pub enum Call {
    Vmalloc(u64),
    Vfree(u64),
    Mmap(MmapCall),
    Munmap(MunmapCall),
    Fault(FaultCall),
    Translate(u64),
}

// `addr`: the address, if one is given.
#[derive(Clone, Copy, Debug, PartialEq, Eq)]
pub struct MmapCall {
    pub addr: Option<u64>,
    pub size: u64,
    pub prot: i32,
    pub flags: i32,
}

#[derive(Clone, Copy, Debug, PartialEq, Eq)]
pub struct MunmapCall {
    pub addr: u64,
    pub size: u64,
}

#[derive(Clone, Copy, Debug, PartialEq, Eq)]
pub struct FaultCall {
    pub addr: u64,
    pub code: u64,
}

impl Call {
    pub fn kind(self) -> Kind
        ensures { number_of result ≡ kind_of self }
    {
        match self {
            Call::Vmalloc(_) => Kind::Vmalloc,
            Call::Vfree(_) => Kind::Vfree,
            Call::Mmap(_) => Kind::Mmap,
            Call::Munmap(_) => Kind::Munmap,
            Call::Fault(_) => Kind::Fault,
            Call::Translate(_) => Kind::Translate,
        }
    }

    // The bytes of the call on the tape, its kind byte among them.
    pub fn size(self) -> usize
        ensures { result ≡ call_size self }
    {
        1 + self.kind().body_size()
    }
}
