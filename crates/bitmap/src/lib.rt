// A set of the numbers below 8192 in 128 words, 64 to a word: bit i % 64 of word i / 64 is 1 where i is marked. The words stay packed bytes: `word` and `put_word` read
// and write one of them, and nothing else touches the bytes.
#![tactic(auto)]

ghost use Rattle.std.specs.Prelude.{◌≡◌, true, ℕ, ◌+◌, ◌*◌, ◌<◌, ◌≤◌, length, get_or, set, replicate, MatchOption};
ghost use Rattle.std.specs.Int.Count.{ones as ones_of};
ghost use Rattle.bits.specs.Bit.{bit};
ghost use Rattle.bitmap.specs.Bitmap.{marked, is_marked, free_from, mark as marking, unmark as unmarking, count as count_below, bitmap_size, marks_in};

// The bytes of all 128 words. The functions take a slice of so many bytes or more (`bitmap_size_in_bounds`): an array by its type would ask more of their callers.
pub const BITMAP_SIZE: usize = 1024;

pub fn is_marked(bitmap: &[u8], i: usize) -> bool
    requires bitmap_size_in_bounds { bitmap_size ≤ length bitmap.now }
    requires i_bound { i < 8192 }
    ensures { result ≡ is_marked (marks_in bitmap.now) i }
{
    word(bitmap, i / 64) & (1 << (i % 64)) != 0
}

pub fn mark(bitmap: &mut [u8], i: usize)
    requires bitmap_size_in_bounds { bitmap_size ≤ length bitmap.old }
    requires i_bound { i < 8192 }
    requires i_value { marked (marks_in bitmap.old) i ≡ 0 }
    ensures { marks_in bitmap.new ≡ marking (marks_in bitmap.old) i }
{
    let k = i / 64;
    let w = word(bitmap, k);
    put_word(bitmap, k, w | (1 << (i % 64)));
}

// Word k.
fn word(bitmap: &[u8], k: usize) -> u64
    requires bitmap_size_in_bounds { bitmap_size ≤ length bitmap.now }
    requires k_bound { k < 128 }
    ensures { result ≡ get_or (marks_in bitmap.now) k 0 }
{
    packed::word_at(bitmap, k * 8)
}

// Word k is w then.
fn put_word(bitmap: &mut [u8], k: usize, w: u64)
    requires bitmap_size_in_bounds { bitmap_size ≤ length bitmap.old }
    requires k_bound { k < 128 }
    ensures { marks_in bitmap.new ≡ set (marks_in bitmap.old) k w }
{
    packed::put_word(bitmap, k * 8, w);
}

pub fn unmark(bitmap: &mut [u8], i: usize)
    requires bitmap_size_in_bounds { bitmap_size ≤ length bitmap.old }
    requires i_bound { i < 8192 }
    requires i_value { marked (marks_in bitmap.old) i ≡ 1 }
    ensures { marks_in bitmap.new ≡ unmarking (marks_in bitmap.old) i }
{
    let k = i / 64;
    let w = word(bitmap, k);
    put_word(bitmap, k, w & !(1 << (i % 64)));
}

// How many of a word's lowest bits are marked before the first that is not, in a word that is not full.
fn marked_run(w: u64) -> usize
    requires { w < u64.MAX }
    ensures within { result < 64 }
    ensures below { (i : ℕ) → i < result → bit i w ≡ 1 }
    ensures next { bit result w ≡ 0 }
{
    (!w).trailing_zeros() as usize
}

// The lowest number below n that is not marked: full words are passed over whole.
pub fn lowest_free(bitmap: &[u8], n: usize) -> Option<usize>
    requires bitmap_size_in_bounds { bitmap_size ≤ length bitmap.now }
    requires n_bound { n ≤ 8192 }
    ensures { MatchOption result (free_from (marks_in bitmap.now) 0 n ≡ n) (λ i. (i ≡ free_from (marks_in bitmap.now) 0 n) × (i < n)) }
{
    for k in 0..n.div_ceil(64) {
        let w = word(bitmap, k);
        if w != u64::MAX {
            let i = k * 64 + marked_run(w);
            return (i < n).then_some(i);
        }
    }
    None
}

// How many bits of a word are 1.
fn ones(w: u64) -> usize
    ensures { result ≡ ones_of w }
{
    w.count_ones() as usize
}

// How many of the first n words have every bit marked before the first that has not.
fn full_words(bitmap: &[u8], n: usize) -> usize
    requires bitmap_size_in_bounds { bitmap_size ≤ length bitmap.now }
    requires n_bound { n ≤ 128 }
    ensures upper_bound { result ≤ n }
    ensures result_value { count_below (marks_in bitmap.now) (result * 64) ≡ result * 64 }
{
    for k in 0..n {
        if word(bitmap, k) != u64::MAX {
            return k;
        }
    }
    n
}

// Whether no bit of the words from `from` up to `end` is marked. One flag is tested at the end, since a test for each word takes longer.
fn is_clear(bitmap: &[u8], from: usize, end: usize) -> bool
    requires bitmap_size_in_bounds { bitmap_size ≤ length bitmap.now }
    requires from_le_end { from ≤ end }
    requires end_bound { end ≤ 128 }
    ensures { result ≡ true → count_below (marks_in bitmap.now) (end * 64) ≡ count_below (marks_in bitmap.now) (from * 64) }
{
    let mut any = 0;
    for k in from..end {
        any |= word(bitmap, k);
    }
    any == 0
}

// How many bits of the words from `from` up to `end` are marked.
fn count_words(bitmap: &[u8], from: usize, end: usize) -> usize
    requires bitmap_size_in_bounds { bitmap_size ≤ length bitmap.now }
    requires from_le_end { from ≤ end }
    requires end_bound { end ≤ 128 }
    ensures { count_below (marks_in bitmap.now) (from * 64) + result ≡ count_below (marks_in bitmap.now) (end * 64) }
{
    let mut sum = 0;
    for k in from..end {
        sum += ones(word(bitmap, k));
    }
    sum
}

// How many bits of the first n words are marked. Full words at the front and clear ones at the end, which is how frames are taken, are not counted bit by bit.
fn count_whole(bitmap: &[u8], n: usize) -> usize
    requires bitmap_size_in_bounds { bitmap_size ≤ length bitmap.now }
    requires n_bound { n ≤ 128 }
    ensures { result ≡ count_below (marks_in bitmap.now) (n * 64) }
{
    let full = full_words(bitmap, n);
    if full == n {
        return n * 64;
    }
    if is_clear(bitmap, full + 1, n) {
        return full * 64 + ones(word(bitmap, full));
    }
    full * 64 + count_words(bitmap, full, n)
}

// How many numbers below n are marked: whole words first, then the bits of the last one.
pub fn count(bitmap: &[u8], n: usize) -> usize
    requires bitmap_size_in_bounds { bitmap_size ≤ length bitmap.now }
    requires n_bound { n ≤ 8192 }
    ensures { result ≡ count_below (marks_in bitmap.now) n }
{
    let whole = n / 64;
    let rest = n % 64;
    let sum = count_whole(bitmap, whole);
    if rest == 0 {
        return sum;
    }
    sum + ones(word(bitmap, whole) & ((1 << rest) - 1))
}

pub fn clear_all(bitmap: &mut [u8; BITMAP_SIZE])
    ensures { marks_in bitmap.new ≡ replicate 128 0 }
{
    bitmap.fill(0);
}
