// One token or one line of a sheet at a time.
ghost use Rattle.std.specs.Prelude.{◌<◌, length};
ghost use Rattle.sheet.specs.Form.{token_at, natural_at, coordinate_at, end_at};
ghost use Rattle.sheet.specs.Sheet.{header, closing_line};
ghost use Rattle.sheet.specs.Reader.{Answers, Moves, Reads, Passes};

use crate::fault::TextFault;
use crate::token::{number_at, token_at};

// A sheet has at most so many points, and at most so many faces.
const MOST: u32 = 1048576;
// A face has at most so many corners.
pub const SIDES: u32 = 64;

// A place in a text. What is read moves it on; after a refusal it says nothing.
#[derive(Clone, Copy)]
pub struct Reader<'a> {
    pub text: &'a [u8],
    pub at: usize,
}

impl Reader<'_> {
    // The token `word`, which is not empty. (The words are known where it is called: without the hint judging a sheet takes a third longer.)
    #[inline(always)]
    pub fn expect(&mut self, word: &[u8]) -> Result<(), TextFault>
        requires { 0 < length word.now }
        ensures { Moves (token_at word.now) self.old result self.new }
    {
        let token = token_at(self.text, self.at)?;
        if token.bytes == word {
            self.at += word.len();
            Ok(())
        } else {
            Err(TextFault::Form(token.place))
        }
    }

    // A number from low to high.
    pub fn natural(&mut self, low: u32, high: u32) -> Result<u32, TextFault>
        ensures { Answers (natural_at low high) self.old result self.new }
    {
        let token = number_at(self.text, self.at)?;
        let n = token.natural(low, high)?;
        self.at += token.bytes.len();
        Ok(n)
    }

    // A coordinate.
    pub fn coordinate(&mut self) -> Result<i32, TextFault>
        ensures { Answers coordinate_at self.old result self.new }
    {
        let token = number_at(self.text, self.at)?;
        let z = token.coordinate()?;
        self.at += token.bytes.len();
        Ok(z)
    }

    // The end of the text.
    pub fn end(&mut self) -> Result<(), TextFault>
        ensures { Moves end_at self.old result self.new }
    {
        if self.text.len() <= self.at {
            Ok(())
        } else {
            Err(TextFault::Form(self.at))
        }
    }

    // The number in a line that begins with a word.
    pub fn header(&mut self, word: &[u8]) -> Result<u32, TextFault>
        requires { 0 < length word.now }
        ensures { Reads (header word.now) self.old result self.new }
    {
        self.expect(word)?;
        self.expect(b" ")?;
        let n = self.natural(0, MOST)?;
        self.expect(b"\n")?;
        Ok(n)
    }

    // The last line, after which the text ends.
    pub fn closing_line(&mut self) -> Result<(), TextFault>
        ensures { Passes closing_line self.old result self.new }
    {
        self.expect(b"end")?;
        self.expect(b"\n")?;
        self.end()
    }
}
