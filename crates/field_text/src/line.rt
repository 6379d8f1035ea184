ghost use Rattle.std.specs.Prelude.{◌≡◌, ◌+◌, ◌≤◌, length};

/// A stretch of a line.
#[derive(Clone, Copy)]
pub struct Word<'a> {
    /// Where it begins, counted from 0.
    pub at: usize,
    pub text: &'a [u8],
    // Every column is a number of 32 bits.
    pub ghost in_line: { at + length text.now ≤ 4_294_967_294 },
}

impl<'a> Word<'a> {
    ghost use Rattle.spec_flow_text.specs.Items.{column};
    ghost use Rattle.spec_flow_text.specs.Actions.{skipping, before_place};
    ghost use Rattle.field_text.specs.WordViews.{word_view};

    /// Where it begins, counted from 1.
    pub fn column(self) -> u32
        ensures { result ≡ column (word_view self.entry) }
    {
        (self.at + 1) as u32
    }

    /// The word without so many bytes at its start.
    pub fn skipping(self, count: usize) -> Word<'a>
        requires { count ≤ length self.text.now }
        ensures { word_view result ≡ skipping count (word_view self.entry) }
    {
        let (_, text) = self.text.split_at(count);
        Word {
            at: self.at + count,
            text,
        }
    }

    /// So many bytes from its start.
    pub fn first(self, count: usize) -> Word<'a>
        requires { count ≤ length self.text.now }
        ensures { word_view result ≡ before_place count (word_view self.entry) }
    {
        let (text, _) = self.text.split_at(count);
        Word { at: self.at, text }
    }
}
