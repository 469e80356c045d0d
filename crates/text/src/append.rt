// The page: the buffer that the text is written into, with the place behind what stands there so far. Bytes, and numbers in decimal,
// are put at that place.
ghost use Rattle.std.specs.Prelude.{◌+◌, ◌∷◌, [], ◌++◌, length};
ghost use Rattle.text.specs.Text.{decimal};
ghost use Rattle.text.specs.Writing.{HasRoom, Puts};

#[derive(Drop)]
pub struct Page<'a> {
    pub buffer: &'a mut [u8],
    pub at: usize,
}

impl Page<'_> {
    fn bytes(&mut self, bytes: &[u8])
        requires { HasRoom (length bytes.now) self.old }
        ensures { Puts (length bytes.now) bytes.now self.old self.new }
    {
        let end = self.at + bytes.len();
        self.buffer[self.at..end].copy_from_slice(bytes);
        self.at = end;
    }

    fn byte(&mut self, byte: u8)
        requires { HasRoom 1 self.old }
        ensures { Puts 1 (byte ∷ []) self.old self.new }
    {
        self.bytes(&[byte]);
    }

    // A word, and the blank or line feed behind it.
    pub fn word(&mut self, word: &[u8], after: u8)
        requires { HasRoom (length word.now + 1) self.old }
        ensures { Puts (length word.now + 1) (word.now ++ after ∷ []) self.old self.new }
    {
        self.bytes(word);
        self.byte(after);
    }

    // A number in decimal, and the blank or line feed behind it. By `itoa`, since `write!` answers a Result of which no clause says that it is Ok.
    pub fn number(&mut self, x: u16, after: u8)
        requires { HasRoom 6 self.old }
        ensures { Puts 6 (decimal x ++ after ∷ []) self.old self.new }
    {
        let mut digits = itoa::Buffer::new();
        self.word(digits.format(x).as_bytes(), after);
    }

    // A word, a blank, the number of which the word tells, and the blank or line feed behind that.
    pub fn told(&mut self, word: &[u8], x: u16, after: u8)
        requires { HasRoom (length word.now + 7) self.old }
        ensures { Puts (length word.now + 7) (word.now ++ 32 ∷ [] ++ (decimal x ++ after ∷ []))
            self.old self.new }
    {
        self.word(word, b' ');
        self.number(x, after);
    }
}
