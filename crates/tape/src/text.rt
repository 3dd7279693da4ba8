// The key's lines, put behind one another into a text of fixed room.
ghost use Rattle.std.specs.Prelude.{◌≡◌, ℕ, [], ◌∷◌, ◌++◌, ◌+◌, ◌≤◌, length};
ghost use Rattle.io.specs.Digits.{last_digits};
ghost use Rattle.tape.specs.Text.{decimal, line_text, count_text};

use answer::Line;
use std::marker::Model;

// A text of at most N bytes; contracts see what is put.
#[derive(Drop)]
pub struct Text<const N: usize> {
    bytes: [u8; N],
    len: usize,
}

impl<const N: usize> Model for Text<N> {
    ghost use Rattle.std.specs.Prelude.{◌≤◌, ℕ, List, take};

    ghost Value = { List ℕ };

    ghost view = { λ t. take t.len t.bytes };

    ghost invariant = { λ t. t.len ≤ N };
}

impl<const N: usize> Text<N> {
    pub fn new() -> Self
        ensures { result ≡ [] }
    {
        Text {
            bytes: [0; N],
            len: 0,
        }
    }

    pub fn as_slice(&self) -> &[u8]
        ensures value { result.now ≡ self.now }
        ensures fits { length result.now ≤ N }
    {
        &self.bytes[..self.len]
    }

    pub fn clear(&mut self)
        ensures { self.new ≡ [] }
    {
        self.len = 0;
    }

    fn put(&mut self, text: &[u8])
        requires { length self.old + length text.now ≤ N }
        ensures { self.new ≡ self.old ++ text.now }
    {
        let start = self.len;
        let end = start + text.len();
        let bytes = &mut self.bytes[..];
        bytes[start..end].copy_from_slice(text);
        self.len = end;
    }

    fn put_byte(&mut self, b: u8)
        requires { length self.old + 1 ≤ N }
        ensures { self.new ≡ self.old ++ (b ∷ []) }
    {
        self.bytes[self.len] = b;
        self.len += 1;
    }

    fn put_decimal(&mut self, n: u64)
        requires { length self.old + 20 ≤ N }
        ensures text { self.new ≡ self.old ++ decimal n }
        ensures upper_bound { length self.new ≤ length self.old + 20 }
    {
        let mut text = [0; 20];
        let k = io::decimal(n, &mut text);
        self.put(&text[..k]);
    }

    fn put_hex(&mut self, n: u64)
        requires { length self.old + 16 ≤ N }
        ensures text { self.new ≡ self.old ++ last_digits 16 16 n }
        ensures upper_bound { length self.new ≤ length self.old + 16 }
    {
        let mut text = [0; 16];
        let k = io::hex(n, 16, &mut text);
        self.put(&text[..k]);
    }

    // The line of a call of a kind.
    pub fn put_line(&mut self, kind: u64, line: Line)
        requires { length self.old + 64 ≤ N }
        ensures text { self.new ≡ self.old ++ line_text kind line }
        ensures upper_bound { length self.new ≤ length self.old + 64 }
    {
        self.put_decimal(kind);
        self.put_byte(b' ');
        self.put_decimal(line.number);
        self.put_byte(b' ');
        self.put_hex(line.value);
        self.put_byte(b'\n');
    }

    // A word of at most 20 letters and a number.
    pub fn put_count(&mut self, word: &[u8], n: u64)
        requires room { length self.old + 64 ≤ N }
        requires word_len_bound { length word.now ≤ 20 }
        ensures text { self.new ≡ self.old ++ count_text word.now n }
        ensures upper_bound { length self.new ≤ length self.old + 64 }
    {
        self.put(word);
        self.put_byte(b' ');
        self.put_decimal(n);
        self.put_byte(b'\n');
    }
}
