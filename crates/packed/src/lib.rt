// State as packed bytes: numbers of 64 bits, little-endian. docs/LAYOUT.md has each part's layout.
#![tactic(auto)]

ghost use Rattle.std.specs.Prelude.{◌≡◌, ◌+◌, ◌*◌, ◌^◌, ◌≤◌, ◌<◌, length, drop};
ghost use Rattle.std.proofs.lemmas.List.Edits.{sets};
ghost use Rattle.std.proofs.Common.{of_z, to_z};
ghost use Rattle.std.specs.Int.{w32};
ghost use Rattle.packed.specs.Words.{number, bytes as bytes_of, pack, unpack};

// The number in the eight bytes from `at` on. The back end makes one load of it.
pub fn word_at(bytes: &[u8], at: usize) -> u64
    requires { at + 8 ≤ length bytes.now }
    ensures { result ≡ number 8 (drop at bytes.now) }
{
    u64::from_le_bytes(bytes[at..at + 8].try_into().unwrap())
}

// The number in the four bytes from `at` on.
pub fn half_at(bytes: &[u8], at: usize) -> u64
    requires { at + 4 ≤ length bytes.now }
    ensures value { result ≡ number 4 (drop at bytes.now) }
    ensures upper_bound { result < 2 ^ 32 }
{
    u64::from(u32::from_le_bytes(bytes[at..at + 4].try_into().unwrap()))
}

// A 32-bit number by its two's-complement bits.
pub fn signed(x: u64) -> i32
    requires { x < 2 ^ 32 }
    ensures { result ≡ to_z w32 x }
{
    (x as u32).cast_signed()
}

// .. and back.
pub fn unsigned(z: i32) -> u64
    ensures value { result ≡ of_z w32 z }
    ensures upper_bound { result < 2 ^ 32 }
{
    u64::from(z.cast_unsigned())
}

// The eight bytes of a number, from `at` on. The back end makes one store of these eight; of `copy_from_slice` it makes a loop of stores where it knows the number
// to be small (`vm_list::put`), so that `take_region` took a fifth longer.
pub fn put_word(bytes: &mut [u8], at: usize, x: u64)
    requires { at + 8 ≤ length bytes.old }
    ensures { bytes.new ≡ sets bytes.old at (bytes_of 8 x) }
{
    let word = x.to_le_bytes();
    bytes[at] = word[0];
    bytes[at + 1] = word[1];
    bytes[at + 2] = word[2];
    bytes[at + 3] = word[3];
    bytes[at + 4] = word[4];
    bytes[at + 5] = word[5];
    bytes[at + 6] = word[6];
    bytes[at + 7] = word[7];
}

// All numbers of a part.
pub fn get_words(bytes: &[u8], words: &mut [u64])
    requires { length bytes.now ≡ 8 * length words.old }
    ensures { words.new ≡ unpack (length words.old) bytes.now }
{
    for (i, w) in words.iter_mut().enumerate() {
        *w = word_at(bytes, i * 8);
    }
}

// All numbers of a part, packed.
pub fn put_words(bytes: &mut [u8], words: &[u64])
    requires { length bytes.old ≡ 8 * length words.now }
    ensures { bytes.new ≡ pack words.now }
{
    for (i, w) in words.iter().enumerate() {
        put_word(bytes, i * 8, *w);
    }
}
