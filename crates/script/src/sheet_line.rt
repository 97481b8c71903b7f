ghost use Rattle.std.specs.Prelude.{◌≡◌, ◌<◌, ◌≤◌, [], ◌∷◌, ◌++◌, length};

use arrayvec::ArrayVec;
use itoa::{Buffer, Integer};

// Room for a letter, words of up to 9 bytes, a number of up to 20 and the byte that ends the line.
const LINE_BYTES: usize = 32;

/// What is printed for one line of a script (docs/TALLY.md, section 4).
#[derive(Clone, Drop)]
pub struct SheetLine {
    text: ArrayVec<u8, LINE_BYTES>,
}

impl SheetLine {
    ghost use Rattle.script.specs.Sheets.{sheet_bytes};

    // The letter, the words, the number and the byte that ends the line.
    pub(crate) fn new<I: Integer>(letter: char, words: &[u8], number: I) -> SheetLine
        requires ascii { letter < 128 }
        requires few_words { length words.now ≤ 9 }
        requires few_digits { I.MAX_STR_LEN ≤ 20 }
        ensures { sheet_bytes result ≡ letter ∷ (words.now ++ I.text number ++ (10 ∷ [])) }
    {
        let mut text = ArrayVec::new();
        text.push(letter as u8);
        text.try_extend_from_slice(words).unwrap();
        text.try_extend_from_slice(Buffer::new().format(number).as_bytes())
            .unwrap();
        text.push(b'\n');
        SheetLine { text }
    }

    /// The bytes to print, with byte 10 as the last.
    pub fn as_slice(&self) -> &[u8]
        ensures { result.now ≡ sheet_bytes self.now }
    {
        self.text.as_slice()
    }
}
