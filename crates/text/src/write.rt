// Words and numbers, written into a buffer one behind another.

ghost use Rattle.std.specs.Prelude.{◌≡◌};
ghost use Rattle.text.specs.Bytes.{decimal, word_number};
ghost use Rattle.text.specs.Writes.{HasRoom, Writes, Begins, count_of};

// A buffer, and the place up to which it is written.
#[derive(Drop)]
pub struct Writer<'a> {
    out: &'a mut [u8],
    at: usize,
}

impl<'a> Writer<'a> {
    // A writer at a buffer's start.
    pub fn new(out: &'a mut [u8]) -> Writer<'a>
        ensures { Begins out.entry result }
    {
        Writer { out, at: 0 }
    }

    // How many bytes are written.
    pub fn count(&self) -> usize
        ensures { result ≡ count_of self.now }
    {
        self.at
    }

    // Writes a word.
    pub fn word(&mut self, word: &[u8])
        requires { HasRoom self.old word.now }
        ensures { Writes self.old word.now self.new }
    {
        let end = self.at + word.len();
        self.out[self.at..end].copy_from_slice(word);
        self.at = end;
    }

    // Writes a number in decimal: its digits but the last by the same call, and the last behind them.
    pub fn decimal(&mut self, n: usize)
        requires { HasRoom self.old (decimal n) }
        ensures { Writes self.old (decimal n) self.new }
    {
        if 9 < n {
            self.decimal(n / 10);
        }
        self.out[self.at] = b'0' + (n % 10) as u8;
        self.at += 1;
    }

    // Writes a word, and a number behind it.
    pub fn word_number(&mut self, word: &[u8], n: usize)
        requires { HasRoom self.old (word_number word.now n) }
        ensures { Writes self.old (word_number word.now n) self.new }
    {
        self.word(word);
        self.decimal(n);
    }
}
