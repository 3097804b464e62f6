// A lent buffer that is written from its start on.
ghost use Rattle.std.specs.Prelude.{◌≡◌, [], ◌∷◌, ◌++◌, decimal};
ghost use Rattle.std.specs.Fmt.{signed_decimal};
ghost use Rattle.sheet.specs.Form.{line_end};
ghost use Rattle.writer.specs.Pages.{HasRoom, Grows};

// The buffer, and the place of the byte that is written next. It is no `fmt::Write`: that promises what a call that succeeds has written,
// and here a call that has room must succeed.
#[derive(Drop)]
pub struct Page<'a> {
    pub buf: &'a mut [u8],
    pub at: usize,
}

impl<'a> Page<'a> {
    // Nothing is written yet.
    pub fn new(buf: &'a mut [u8]) -> Page<'a>
        ensures lent { result.buf.ghost_name ≡ buf.entry.ghost_name }
        ensures bytes { result.buf.now ≡ buf.old }
        ensures at { result.at ≡ 0 }
    {
        Page { buf, at: 0 }
    }

    pub fn byte(&mut self, b: u8)
        requires { HasRoom (b ∷ []) self.old }
        ensures { Grows (b ∷ []) self.old self.new }
    {
        self.buf[self.at] = b;
        self.at += 1;
    }

    pub fn word(&mut self, word: &[u8])
        requires { HasRoom word.now self.old }
        ensures { Grows word.now self.old self.new }
    {
        let end = self.at + word.len();
        self.buf[self.at..end].copy_from_slice(word);
        self.at = end;
    }

    // A number in decimal. (The library's Display cannot be used here, as said above.)
    pub fn number(&mut self, n: usize)
        requires { HasRoom (decimal n) self.old }
        ensures { Grows (decimal n) self.old self.new }
    {
        if n < 10 {
            self.byte(b'0' + n as u8);
        } else {
            self.number(n / 10);
            self.byte(b'0' + (n % 10) as u8);
        }
    }

    // The same with a minus in front of a number below 0.
    pub fn signed(&mut self, z: i32)
        requires { HasRoom (signed_decimal z) self.old }
        ensures { Grows (signed_decimal z) self.old self.new }
    {
        if z < 0 {
            self.byte(b'-');
        }
        self.number(z.unsigned_abs() as usize);
    }

    // A word and a number, as a line.
    pub fn heading(&mut self, word: &[u8], n: u32)
        requires { HasRoom (word.now ++ (decimal n ++ line_end)) self.old }
        ensures { Grows (word.now ++ (decimal n ++ line_end)) self.old self.new }
    {
        self.word(word);
        self.number(n as usize);
        self.byte(b'\n');
    }
}
