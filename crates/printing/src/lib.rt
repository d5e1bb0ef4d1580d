// Text into a lent row of bytes: single bytes, words and decimal numbers, one behind the other, as far as there is room.
#![tactic(auto)]

ghost use Rattle.std.specs.Prelude.{◌≡◌, [], ◌∷◌, ◌+◌, ◌<◌};
ghost use Rattle.printing.specs.Inner.{Writes};
ghost use Rattle.printing.specs.Decimal.{digit, decimal};

// A lent row, and how far it is written. No `write!`: it promises the text where it succeeds, and not that it does; these put it always.
#[derive(Drop)]
pub struct Text<'a> {
    pub row: &'a mut [u8],
    pub at: usize,
}

impl<'a> Text<'a> {
    // At the start of a row.
    pub fn new(row: &'a mut [u8]) -> Text<'a>
        ensures same_row { result.row.ghost_name ≡ row.entry.ghost_name }
        ensures bytes { result.row.now ≡ row.old }
        ensures at_start { result.at ≡ 0 }
    {
        Text { row, at: 0 }
    }

    // Writes one byte.
    pub fn put_byte(&mut self, byte: u8)
        ensures { Writes self.old (byte ∷ []) self.new }
    {
        if self.at < self.row.len() {
            self.row[self.at] = byte;
            self.at += 1;
        }
    }

    // Writes a word.
    pub fn put_word(&mut self, word: &[u8])
        ensures { Writes self.old word.now self.new }
    {
        for byte in word {
            self.put_byte(*byte);
        }
    }

    // Writes a number in decimal.
    pub fn put_decimal(&mut self, n: usize)
        ensures { Writes self.old (decimal n) self.new }
    {
        if n < 10 {
            return self.put_byte(digit(n));
        }
        self.put_decimal(n / 10);
        self.put_byte(digit(n % 10));
    }
}

#[tactic(auto, unfolding(crate::specs::Decimal::digit))]
fn digit(n: usize) -> u8
    requires { n < 10 }
    ensures { result ≡ digit n }
{
    b'0' + n as u8
}
