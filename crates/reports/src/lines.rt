// Lines: text, numbers in decimal, and whole lines.
ghost use Rattle.std.specs.Prelude.{◌≡◌, ℕ, ◌+◌, ◌*◌, ◌<◌, ◌≤◌, List, [], ◌∷◌, ◌++◌, false, length};
ghost use Rattle.reports.specs.Lines.{fields as fields_of, in_front, line, opening, too_small};

use arrayvec::ArrayVec;
use itoa::{Buffer, Integer};
use std::marker::Model;
use transcripts::fault::Fault;

// The most bytes that a line has, and the fewest that a buffer for lines has.
const LENGTH: usize = 128;

// A line, or what it begins with. Each method asks for the room that it takes, which no type can say. It is not printed by `write!`, whose contract does not say that it succeeds where there is room.
#[derive(Drop)]
pub(crate) struct Line {
    bytes: ArrayVec<u8, LENGTH>,
}

impl Model for Line {
    ghost Value = { List ℕ };

    ghost view = { λ l. l.bytes.items };
}

impl Line {
    // An empty line.
    pub(crate) fn new() -> Line
        ensures { result ≡ [] }
    {
        Line {
            bytes: ArrayVec::new(),
        }
    }

    // Writes the line of a record into an empty line: its number, a word, fields and a tail.
    #[inline(always)]
    pub(crate) fn write(&mut self, n: usize, word: &[u8], numbers: &[u32], tail: &[u8])
        requires empty { self.old ≡ [] }
        requires room { 21 + length word.now + 11 * length numbers.now + length tail.now ≤ 128 }
        ensures { self.new ≡ line n word.now numbers.now tail.now }
    {
        self.open(n, word, numbers);
        self.text(tail);
        self.byte(b'\n');
    }

    // Opens an empty line with the number of a record, a word and fields.
    #[inline(always)]
    fn open(&mut self, n: usize, word: &[u8], numbers: &[u32])
        requires empty { self.old ≡ [] }
        requires room { 20 + length word.now + 11 * length numbers.now ≤ 128 }
        ensures bytes { self.new ≡ opening n word.now numbers.now }
        ensures short { length self.new ≤ 20 + length word.now + 11 * length numbers.now }
    {
        self.number(n);
        self.text(word);
        self.fields(numbers);
    }

    // Adds numbers, each behind a blank.
    #[inline(always)]
    fn fields(&mut self, numbers: &[u32])
        requires { length self.old + 11 * length numbers.now ≤ 128 }
        ensures bytes { self.new ≡ self.old ++ fields_of numbers.now }
        ensures short { length self.new ≤ length self.old + 11 * length numbers.now }
    {
        for n in numbers {
            self.byte(b' ');
            self.number(*n);
        }
    }

    // Adds a number in decimal.
    fn number<I: Integer>(&mut self, n: I)
        requires { length self.old + I.MAX_STR_LEN ≤ 128 }
        ensures bytes { self.new ≡ self.old ++ I.text n }
        ensures short { length self.new ≤ length self.old + I.MAX_STR_LEN }
    {
        let mut buffer = Buffer::new();
        let digits = buffer.format(n).as_bytes();
        for digit in digits {
            self.byte(*digit);
        }
    }

    // Adds a byte.
    #[inline(always)]
    fn byte(&mut self, byte: u8)
        requires { length self.old < 128 }
        ensures { self.new ≡ self.old ++ (byte ∷ []) }
    {
        self.bytes.push(byte);
    }

    // Adds a text.
    #[inline(always)]
    fn text(&mut self, text: &[u8])
        requires { length self.old + length text.now ≤ 128 }
        ensures { self.new ≡ self.old ++ text.now }
    {
        self.bytes.try_extend_from_slice(text).unwrap();
    }

    // The bytes of the line.
    pub(crate) fn as_bytes(&self) -> &[u8]
        ensures bytes { result.now ≡ self.now }
        ensures short { length result.now ≤ 128 }
    {
        self.bytes.as_slice()
    }

    // Puts the line in front of a buffer, and gives its length.
    pub(crate) fn put(&self, buffer: &mut [u8]) -> usize
        requires { too_small (length buffer.old) ≡ false }
        ensures length { result ≡ length self.now }
        ensures buffer { buffer.new ≡ in_front self.now buffer.old }
    {
        let bytes = self.as_bytes();
        buffer[..bytes.len()].copy_from_slice(bytes);
        bytes.len()
    }
}

// The line of a fault.
impl From<Fault> for Line {
    ghost use Rattle.reports.specs.Reports.{fault_line};

    ghost from_gives = { λ e l. l ≡ fault_line e };

    fn from(fault: Fault) -> Line {
        let at = fault.at();
        let mut line = Line::new();
        line.open(at.number, b" bad", &[fault.number()]);
        line.text(b" at ");
        line.number(at.place);
        line.byte(b'\n');
        line
    }
}

// Whether a buffer is too small for a line.
pub(crate) fn is_small(buffer: &[u8]) -> bool
    ensures { result ≡ too_small (length buffer.now) }
{
    buffer.len() < LENGTH
}
