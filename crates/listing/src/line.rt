// The lines that the program prints.
ghost use Rattle.std.specs.Prelude.{◌≡◌, [], ◌∷◌, ◌++◌};
ghost use Rattle.printing.specs.Decimal.{decimal};
ghost use Rattle.printing.specs.Inner.{Writes};
ghost use Rattle.listing.specs.Listing.{kind_of};
ghost use Rattle.listing.specs.Line.{word_of, line_text, head_text, refused_text};

use crate::{Kind, Section};
use printing::Text;

impl Kind {
    // The kind of a line. Not From: that of a bool would not say of what.
    pub(crate) fn of_line(tall: bool) -> Kind
        ensures { result ≡ kind_of tall }
    {
        if tall {
            Kind::Horizontal
        } else {
            Kind::Vertical
        }
    }

    // Its word, and a space.
    #[tactic(auto, unfolding(crate::specs::Line::word_of))]
    fn word(self) -> &'static [u8]
        ensures { result.now ≡ word_of self }
    {
        match self {
            Kind::Vertical => b"VERTICAL ",
            Kind::Horizontal => b"HORIZONTAL ",
            Kind::Piece => b"PIECE ",
            Kind::Scrap => b"SCRAP ",
        }
    }
}

// Writes a number and the byte behind it.
fn put_number(text: &mut Text, n: usize, end: u8)
    ensures { Writes text.old (decimal n ++ (end ∷ [])) text.new }
{
    text.put_decimal(n);
    text.put_byte(end);
}

// Writes the line of a node.
pub(crate) fn put_line(text: &mut Text, section: Section, earning: usize, kind: Kind, number: u16)
    ensures { Writes text.old (line_text section.level section.width section.height earning kind number) text.new }
{
    put_number(text, section.level, b' ');
    put_number(text, section.width, b' ');
    put_number(text, section.height, b' ');
    put_number(text, earning, b' ');
    text.put_word(kind.word());
    put_number(text, usize::from(number), b'\n');
}

// Writes the first line.
pub fn put_head(text: &mut Text, value: usize, worked: usize)
    ensures { Writes text.old (head_text value worked) text.new }
{
    text.put_word(b"value ");
    put_number(text, value, b' ');
    text.put_word(b"worked ");
    put_number(text, worked, b'\n');
}

// Writes the line of a refusal.
pub fn put_refused(text: &mut Text, number: usize)
    ensures { Writes text.old (refused_text number) text.new }
{
    text.put_word(b"refused ");
    put_number(text, number, b'\n');
}
