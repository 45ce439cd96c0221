ghost use Rattle.std.specs.Prelude.{◌≡◌, ◌+◌, ◌≤◌, [], ◌∷◌, length, decimal};

use text::Text;

// Puts bytes one after another into a row, from its start.
#[derive(Drop)]
pub(crate) struct RowWriter<'r> {
    row: &'r mut [u8],
    len: usize,
    ghost within_row: { len ≤ length row.now },
}

impl<'r> RowWriter<'r> {
    ghost use Rattle.report.specs.Appending.{HasRoom, Appended};
    ghost use Rattle.report.specs.Lines.{hexes};

    pub(crate) fn new(row: &'r mut [u8]) -> RowWriter<'r>
        ensures same_row { result.row.ghost_name ≡ row.entry.ghost_name }
        ensures value { result.row.now ≡ row.old }
        ensures empty { result.len ≡ 0 }
    {
        RowWriter { row, len: 0 }
    }

    // How many bytes it has put.
    pub(crate) fn len(&self) -> usize
        ensures { result ≡ self.now.len }
    {
        self.len
    }

    // How many bytes the row has left.
    pub(crate) fn room(&self) -> usize
        ensures { self.now.len + result ≡ length self.now.row.now }
    {
        self.row.len() - self.len
    }

    // Puts the bytes as they are. Inlined, so that a loop over many texts keeps the length in a register.
    #[inline(always)]
    pub(crate) fn text(&mut self, text: &[u8])
        requires { HasRoom self.old (length text.now) }
        ensures { Appended self.old text.now self.new }
    {
        let end = self.len + text.len();
        self.row[self.len..end].copy_from_slice(text);
        self.len = end;
    }

    // Puts a number in decimal digits.
    pub(crate) fn number(&mut self, n: u32)
        requires { HasRoom self.old 28 }
        ensures bound { self.new.len ≤ self.old.len + 28 }
        ensures wrote { Appended self.old (decimal n) self.new }
    {
        self.text(Text::of_number(u64::from(n)).as_bytes());
    }

    // Puts a space and a word in hexadecimal.
    pub(crate) fn word(&mut self, w: u32)
        requires { HasRoom self.old 9 }
        ensures bound { self.new.len ≡ self.old.len + 9 }
        ensures wrote { Appended self.old (hexes (w ∷ [])) self.new }
    {
        self.text(b" ");
        self.text(Text::of_word(w).as_bytes());
    }
}
