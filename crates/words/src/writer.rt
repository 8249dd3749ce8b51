// A text that is written into a lent buffer, from left to right.
ghost use Rattle.std.specs.Prelude.{◌≤◌, length};

// The buffer, and the place past what is written.
#[derive(Drop)]
pub struct Writer<'a> {
    pub out: &'a mut [u8],
    pub at: usize,
    ghost within: { at ≤ length out.now },
}

impl<'a> Writer<'a> {
    ghost use Rattle.std.specs.Prelude.{[], ◌∷◌, ◌+◌, ◌<◌};
    ghost use Rattle.words.specs.Room.{field_room};
    ghost use Rattle.words.specs.Text.{decimal, field};
    ghost use Rattle.words.specs.Writing.{Wrote};

    // Writes a byte.
    pub fn byte(&mut self, b: u8)
        requires { self.old.at < length self.old.out.now }
        ensures { Wrote (b ∷ []) self.old self.new }
    {
        self.out[self.at] = b;
        self.at += 1;
    }

    // Writes a word.
    pub fn word(&mut self, word: &[u8])
        requires { self.old.at + length word.now ≤ length self.old.out.now }
        ensures { Wrote word.now self.old self.new }
    {
        let next = self.at + word.len();
        self.out[self.at..next].copy_from_slice(word);
        self.at = next;
    }

    // Writes the digits of v. By hand: what std promises of `Display` into memory of fixed size leaves open that the text is cut, so that no proof could
    // know the digits.
    fn decimal(&mut self, v: usize)
        requires { self.old.at + length (decimal v) ≤ length self.old.out.now }
        ensures { Wrote (decimal v) self.old self.new }
    {
        let more = 10 <= v;
        if more {
            self.decimal(v / 10);
        }
        // A cast: no `From` leads from usize to u8, and the proof shows that it fits.
        self.byte(b'0' + (v % 10) as u8);
    }

    // Writes a blank and v.
    pub fn field(&mut self, v: usize)
        requires { self.old.at + field_room ≤ length self.old.out.now }
        ensures { Wrote (field v) self.old self.new × (self.new.at ≤ self.old.at + field_room) }
    {
        self.byte(b' ');
        self.decimal(v);
    }
}
