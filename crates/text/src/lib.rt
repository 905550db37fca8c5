// Text written into a lent buffer, a piece after the other. A piece that passes the buffer's end is cut off there, so the same
// writer, lent an empty buffer, measures a text.
#![tactic(auto)]

ghost use Rattle.std.specs.Prelude.{◌≡◌, [], ◌∷◌, ◌<◌};
ghost use Rattle.text.specs.Text.{decimal, hex_digit, hex_of, key_text, field, named};
ghost use Rattle.text.specs.Inner.Written.{Ends, Wrote};

// A lent buffer, and the place in it where the next piece goes.
#[derive(Drop)]
pub struct Writer<'a> {
    pub out: &'a mut [u8],
    pub at: usize,
}

impl Writer<'_> {
    // Writes a byte.
    pub fn put_byte(&mut self, b: u8)
        requires { Ends self.old.at (b ∷ []) }
        ensures { Wrote self.old (b ∷ []) self.new }
    {
        if self.at < self.out.len() {
            self.out[self.at] = b;
        }
        self.at += 1;
    }

    // Writes bytes as they are, by a writer of this call's own, whose place no byte that is stored can change.
    pub fn put_word(&mut self, word: &[u8])
        requires { Ends self.old.at word.now }
        ensures { Wrote self.old word.now self.new }
    {
        let mut front = Writer {
            out: &mut *self.out,
            at: self.at,
        };
        for &b in word {
            front.put_byte(b);
        }
        self.at = front.at;
    }

    // Writes a number in decimal digits, laid down from the last one at the end of an array: 2^64 - 1 has 20.
    fn put_decimal(&mut self, n: u64)
        requires { Ends self.old.at (decimal n) }
        ensures { Wrote self.old (decimal n) self.new }
    {
        let mut digits = [0; 20];
        let mut from = 19;
        let mut rest = n;
        while 10 <= rest {
            digits[from] = b'0' + (rest % 10) as u8;
            from -= 1;
            rest /= 10;
        }
        digits[from] = b'0' + rest as u8;
        self.put_word(&digits[from..]);
    }

    // Writes bytes in lower-case hex, by a writer of this call's own, as `put_word` does.
    fn put_hex(&mut self, bytes: &[u8])
        requires { Ends self.old.at (hex_of bytes.now) }
        ensures { Wrote self.old (hex_of bytes.now) self.new }
    {
        let mut front = Writer {
            out: &mut *self.out,
            at: self.at,
        };
        for &b in bytes {
            front.put_byte(hex_digit(b / 16));
            front.put_byte(hex_digit(b % 16));
        }
        self.at = front.at;
    }

    // Writes a key in lower-case hex, `-` if it is empty.
    pub fn put_key(&mut self, key: &[u8])
        requires { Ends self.old.at (key_text key.now) }
        ensures { Wrote self.old (key_text key.now) self.new }
    {
        if key.is_empty() {
            self.put_byte(b'-');
        } else {
            self.put_hex(key);
        }
    }

    // Writes a space and a number.
    pub fn put_field(&mut self, n: u64)
        requires { Ends self.old.at (field n) }
        ensures { Wrote self.old (field n) self.new }
    {
        self.put_byte(b' ');
        self.put_decimal(n);
    }

    // Writes a word, a space and a number.
    pub fn put_named(&mut self, word: &[u8], n: u64)
        requires { Ends self.old.at (named word.now n) }
        ensures { Wrote self.old (named word.now n) self.new }
    {
        self.put_word(word);
        self.put_field(n);
    }
}

// A digit in lower-case hex.
fn hex_digit(d: u8) -> u8
    requires { d < 16 }
    ensures { result ≡ hex_digit d }
{
    if d < 10 { b'0' + d } else { b'a' + (d - 10) }
}
