// The text of lines: words, numbers and a line's end, written one behind the other into a lent buffer. What has no room is left out.
#![tactic(auto)]

ghost use Rattle.std.specs.Prelude.{◌≡◌, [], ◌∷◌, ◌-◌, length, take};
ghost use Rattle.text.specs.Line.{raw, number, decimal, hex, newline};
ghost use Rattle.text.specs.Page.{page, put, puts};
ghost use Rattle.text.specs.Law.{EveryLine};

use buffer::min;
use std::marker::Model;

// A lent buffer, and where the text in it ends.
#[derive(Drop)]
pub struct Page<'a> {
    text: &'a mut [u8],
    filled: usize,
}

impl<'a> Model for Page<'a> {
    ghost use Rattle.text.specs.Page.{Page, page};

    ghost Value = { Page };

    ghost view = { λ p. page p.text.now p.filled };
}

impl<'a> Page<'a> {
    pub fn new(text: &'a mut [u8]) -> Page<'a>
        ensures { result ≡ page text.old 0 }
    {
        Page { text, filled: 0 }
    }

    // Behind text that stands in the buffer already. Any place will do: at the buffer's end or behind it there is no room.
    pub fn new_at(text: &'a mut [u8], at: usize) -> Page<'a>
        ensures { result ≡ page text.old at }
    {
        Page { text, filled: at }
    }

    // Where the text ends.
    #[tactic(auto, unfolding(crate::specs::Page::page))]
    pub fn place(&self) -> usize
        ensures { result ≡ self.now.at }
    {
        let Page { filled, .. } = self;
        *filled
    }

    // For how many bytes more there is room.
    #[tactic(auto, unfolding(crate::specs::Page::page))]
    pub fn room(&self) -> usize
        ensures { result ≡ length self.now.bytes - self.now.at }
    {
        self.text.len().saturating_sub(self.filled)
    }

    // The text so far.
    #[tactic(auto, unfolding(crate::specs::Page::page))]
    pub fn written(&self) -> &[u8]
        ensures { result.now ≡ take self.now.at self.now.bytes }
    {
        &self.text[..min(self.filled, self.text.len())]
    }

    // Begins the text anew.
    #[tactic(auto, unfolding(crate::specs::Page::page))]
    pub fn clear(&mut self)
        ensures { self.new ≡ page self.old.bytes 0 }
    {
        self.filled = 0;
    }

    // The bytes of a word as they are.
    pub fn word(&mut self, letters: &[u8])
        ensures { self.new ≡ put (raw letters.now) self.old }
    {
        let all = self.text.len();
        if self.filled < all {
            let n = min(letters.len(), all - self.filled);
            let end = self.filled + n;
            self.text[self.filled..end].copy_from_slice(&letters[..n]);
            self.filled = end;
        }
    }

    // A number in decimal.
    #[tactic(auto, using(crate::proofs::Laws::decimal_of), unfolding(crate::specs::Page::put))]
    pub fn decimal(&mut self, n: u64)
        ensures { self.new ≡ put (decimal n) self.old }
    {
        let mut digits = [0u8; 20];
        let k = io::decimal(n, &mut digits);
        self.word(&digits[..k]);
    }

    // A space and a number in decimal.
    pub fn number(&mut self, n: u64)
        ensures { self.new ≡ put (number n) self.old }
    {
        self.word(b" ");
        self.decimal(n);
    }

    // A number in eight hexadecimal digits.
    #[tactic(auto, using(crate::proofs::Laws::hex_of), unfolding(crate::specs::Page::put))]
    pub fn hex(&mut self, n: u32)
        ensures { self.new ≡ put (hex n) self.old }
    {
        let mut digits = [0u8; 16];
        let k = io::hex(u64::from(n), 8, &mut digits);
        self.word(&digits[..k]);
    }

    // A word, a space and a number.
    pub fn field(&mut self, letters: &[u8], n: u64)
        ensures { self.new ≡ puts (raw letters.now ∷ number n ∷ []) self.old }
    {
        self.word(letters);
        self.number(n);
    }

    // A line's end.
    pub fn end(&mut self)
        ensures { self.new ≡ put newline self.old }
    {
        self.word(b"\n");
    }
}

// What holds of every line, as a promise: its pieces, put one behind the other, are its text; with room all of it is there; a text that ends
// within its buffer still does. The body does nothing: the promise is a theorem.
pub fn every_line()
    ensures { EveryLine }
{}

#[cfg(test)]
mod tests {
    use super::*;

    // A text that is begun at the front, or anew, ends within its buffer, whatever is written.
    #[test]
    fn a_text_within(rt: HostRuntime) {
        every_line();
        let mut text = [b'.'; 4];
        let mut page = Page::new(&mut text);
        page.word(b"abc");
        assert_eq!(rt; (page.place(), page.room()), (3, 1));
        page.word(b"def");
        assert_eq!(rt; (page.place(), page.room()), (4, 0));
        page.end();
        assert_eq!(rt; (page.place(), page.room()), (4, 0));
        assert!(rt; page.written() == b"abcd".as_slice());
        page.clear();
        page.number(7);
        assert_eq!(rt; (page.place(), page.room()), (2, 2));
        assert!(rt; page.written() == b" 7".as_slice());
    }

    // Behind its buffer's end a text stays as it is, and nothing is written.
    #[test]
    fn a_text_behind(rt: HostRuntime) {
        let mut text = [b'.'; 4];
        let mut page = Page::new_at(&mut text, 6);
        page.word(b"abc");
        assert_eq!(rt; (page.place(), page.room()), (6, 0));
        assert!(rt; page.written() == b"....".as_slice());
    }
}
