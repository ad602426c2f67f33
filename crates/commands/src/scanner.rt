// A line read once, byte by byte.
ghost use Rattle.std.specs.Prelude.{◌≡◌, ◌≤◌, length};
ghost use Rattle.commands.specs.Commands.{line_most};
ghost use Rattle.commands.specs.Scanning.{initial_scan, grown, fits, within, word_ended};
ghost use Rattle.commands.specs.Scanning.{letter_with, byte_read, stepped, scanned};

// How far a line has been read: the byte that its first word has; how many words have ended, and the last three of
// them as numbers, the latest last: three fields and no array, since `scanned` and the theorems over it name them; the
// length and the value of the word under way; and whether every word so far is what a command may have there: a flag
// and no Option, since `scanned` goes on to the line's end all the same.
#[derive(Clone, Copy)]
pub struct Scan {
    pub letter: u8,
    pub words: usize,
    pub third: u16,
    pub second: u16,
    pub last: u16,
    pub bytes: usize,
    pub value: u32,
    pub valid: bool,
}

// "1 to 5 digits"
const NUMBER_DIGITS: usize = 5;

// "at most 65,535"; by `as`, since a constant's value calls no `from`
const NUMBER_MOST: u32 = u16::MAX as u32;

impl Scan {
    // Before the first byte.
    const START: Self = Scan {
        letter: 0,
        words: 0,
        third: 0,
        second: 0,
        last: 0,
        bytes: 0,
        value: 0,
        valid: true,
    };

    // A line's bytes; its last word has not ended.
    #[tactic(auto, using(crate::proofs::OnePass::scanning))]
    pub fn of(line: &[u8]) -> Self
        requires { length line.now ≤ line_most }
        ensures value { result ≡ scanned initial_scan line.now }
        ensures bounded { result.words ≤ line_most }
    {
        let mut scan = Self::START;
        for byte in line {
            scan = scan.step(*byte);
        }
        scan
    }

    #[tactic(auto, unfolding(crate::specs::Scanning::stepped))]
    fn step(self, byte: u8) -> Self
        requires { (self.words ≤ line_most) × (self.bytes ≤ line_most) }
        ensures { result ≡ stepped self byte }
    {
        if byte == b' ' {
            self.end_word()
        } else {
            self.read_byte(byte)
        }
    }

    #[tactic(auto, unfolding(crate::specs::Scanning::word_ended))]
    pub fn end_word(self) -> Self
        requires { self.words ≤ line_most }
        ensures { result ≡ word_ended self }
    {
        Scan {
            words: self.words + 1,
            third: self.second,
            second: self.last,
            last: self.number(),
            bytes: 0,
            value: 0,
            valid: self.valid && self.fits(),
            ..self
        }
    }

    #[tactic(auto, unfolding(crate::specs::Scanning::byte_read, decimal::specs::Numerals::is_digit))]
    fn read_byte(self, byte: u8) -> Self
        requires { self.bytes ≤ line_most }
        ensures { result ≡ byte_read self byte }
    {
        Scan {
            letter: self.letter_with(byte),
            bytes: self.bytes + 1,
            value: self.value_with(byte),
            valid: self.valid && (self.words == 0 || byte.is_ascii_digit()),
            ..self
        }
    }

    // The first word's byte; of several, the last, and then the line is not valid.
    #[tactic(auto, unfolding(crate::specs::Scanning::letter_with))]
    fn letter_with(self, byte: u8) -> u8
        ensures { result ≡ letter_with self byte }
    {
        if self.words == 0 { byte } else { self.letter }
    }

    // The value with one digit more. One that is too large already stays as it is, so that no line makes it overflow.
    #[tactic(auto, unfolding(crate::specs::Scanning::grown))]
    fn value_with(self, byte: u8) -> u32
        ensures { result ≡ grown self.value byte }
    {
        if self.value > NUMBER_MOST {
            self.value
        } else {
            self.value * 10 + u32::from(byte.saturating_sub(b'0'))
        }
    }

    // The word under way as a number: 0 where it is too large, and then the line is not valid.
    #[tactic(auto, unfolding(crate::specs::Scanning::within))]
    fn number(self) -> u16
        ensures { result ≡ within self.value }
    {
        u16::try_from(self.value).unwrap_or(0)
    }

    // Whether the word under way may end here: the first is one letter, the others are numbers.
    #[tactic(auto, unfolding(crate::specs::Scanning::fits))]
    fn fits(self) -> bool
        ensures { result ≡ fits self }
    {
        if self.words == 0 {
            self.bytes == 1
        } else {
            (1..=NUMBER_DIGITS).contains(&self.bytes) && self.value <= NUMBER_MOST
        }
    }
}
