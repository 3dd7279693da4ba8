// A tape's bytes, taken as calls.
ghost use Rattle.std.specs.Prelude.{◌≡◌, ◌≤◌, length};
ghost use Rattle.tape.specs.Tape.{body_size, next, body as body_call, mmap_body};
ghost use Rattle.tape.specs.Kinds.{number_of};

use crate::{Call, FaultCall, Kind, Malformed, MmapCall, MunmapCall};

// The address is given if the first byte is 1 and not if it is 0; no other byte may stand there.
fn read_mmap(body: &[u8]) -> Result<Option<Call>, Malformed>
    requires { 25 ≤ length body.now }
    ensures { result ≡ mmap_body body.now }
{
    let addr = match body[0] {
        0 => None,
        1 => Some(packed::word_at(body, 1)),
        _ => return Err(Malformed),
    };
    Ok(Some(Call::Mmap(MmapCall {
        addr,
        size: packed::word_at(body, 9),
        prot: packed::signed(packed::half_at(body, 17)),
        flags: packed::signed(packed::half_at(body, 21)),
    })))
}

// The call of a kind whose body is there whole.
fn read_body(kind: Kind, body: &[u8]) -> Result<Option<Call>, Malformed>
    requires { body_size (number_of kind) ≤ length body.now }
    ensures { result ≡ body_call (number_of kind) body.now }
{
    let first = packed::word_at(body, 0);
    let call = match kind {
        Kind::Vmalloc => Call::Vmalloc(first),
        Kind::Vfree => Call::Vfree(first),
        Kind::Mmap => return read_mmap(body),
        Kind::Munmap => Call::Munmap(MunmapCall {
            addr: first,
            size: packed::word_at(body, 8),
        }),
        Kind::Fault => Call::Fault(FaultCall {
            addr: first,
            code: packed::word_at(body, 8),
        }),
        Kind::Translate => Call::Translate(first),
    };
    Ok(Some(call))
}

// What stands at the start of the bytes that are left: a call, or nothing at the tape's end.
pub fn read_call(bytes: &[u8]) -> Result<Option<Call>, Malformed>
    ensures { result ≡ next bytes.now }
{
    let Some((first, body)) = bytes.split_first() else {
        return Ok(None);
    };
    let kind = Kind::try_from(*first)?;
    if body.len() < kind.body_size() {
        return Err(Malformed);
    }
    read_body(kind, body)
}
