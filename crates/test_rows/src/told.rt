// What is said of a row, whether or not there is memory for it.
use std::alloc::{AllocError, Global};
use std::fmt::Debug;

/// What is said of a row: words with blanks between them. That a word found no memory is remembered.
#[derive(Drop)]
pub struct Told {
    text: String,
    is_whole: bool,
}

impl Told {
    pub fn new(alloc: Global) -> Told {
        Told {
            text: String::new(alloc),
            is_whole: true,
        }
    }

    /// Adds a word.
    pub fn word(&mut self, word: &str) {
        if self.add(word).is_err() {
            self.is_whole = false;
        }
    }

    /// Says that the row isn't of the form of its kind. No row wants that.
    pub fn malformed(&mut self) {
        self.word("malformed");
    }

    /// Adds `yes` or `no`.
    pub fn truth(&mut self, truth: bool) {
        self.word(if truth { "yes" } else { "no" });
    }

    /// Adds a number.
    pub fn number(&mut self, number: i64) {
        self.shown(&number);
    }

    /// Adds a number of things.
    pub fn count(&mut self, count: usize) {
        self.shown(&count);
    }

    /// Adds a number, or `none`.
    pub fn or_none(&mut self, number: Option<u32>) {
        match number {
            Some(number) => self.number(i64::from(number)),
            None => self.word("none"),
        }
    }

    /// Adds a value as Rust shows it.
    pub fn shown<T: Debug>(&mut self, value: &T) {
        if self.add_shown(value).is_err() {
            self.is_whole = false;
        }
    }

    /// Adds bytes as one word.
    pub fn bytes(&mut self, bytes: &[u8]) {
        if self.add_bytes(bytes).is_err() {
            self.is_whole = false;
        }
    }

    /// Adds a text as rows have it, `\n` for a line feed; `-` if it is empty.
    pub fn text(&mut self, bytes: &[u8]) {
        if bytes.is_empty() {
            self.word("-");
        } else if self.add_text(bytes).is_err() {
            self.is_whole = false;
        }
    }

    /// Remembers that something else found no memory.
    pub fn lack(&mut self) {
        self.is_whole = false;
    }

    /// Forgets all words.
    pub fn clear(&mut self) {
        self.text.clear();
        self.is_whole = true;
    }

    /// Whether the words are what is wanted, and all there. Blanks at the end don't count.
    pub fn is(&self, wanted: &str) -> bool {
        self.is_whole && self.text.as_str().trim_end() == wanted
    }

    pub fn as_str(&self) -> &str {
        self.text.as_str()
    }

    /// The words, if they aren't what is wanted, or aren't all there.
    pub fn other_than(self, wanted: &str) -> Option<String> {
        let is_wanted = self.is_whole && self.text.as_str() == wanted;
        (!is_wanted).then_some(self.into_text())
    }

    /// The words, with blanks between them.
    pub fn into_text(self) -> String {
        let Told { text, .. } = self;
        text
    }

    fn add(&mut self, word: &str) -> Result<(), AllocError> {
        self.blank()?;
        self.text.push_str(word)
    }

    fn add_shown<T: Debug>(&mut self, value: &T) -> Result<(), AllocError> {
        self.blank()?;
        write!(self.text, "{value:?}")
    }

    fn add_bytes(&mut self, bytes: &[u8]) -> Result<(), AllocError> {
        self.blank()?;
        for byte in bytes {
            self.text.push(*byte as char)?;
        }
        Ok(())
    }

    fn add_text(&mut self, bytes: &[u8]) -> Result<(), AllocError> {
        self.blank()?;
        for byte in bytes {
            match *byte {
                b'\n' => self.text.push_str("\\n")?,
                byte => self.text.push(byte as char)?,
            }
        }
        Ok(())
    }

    /// Adds a blank if there is a word before.
    fn blank(&mut self) -> Result<(), AllocError> {
        if self.text.is_empty() {
            Ok(())
        } else {
            self.text.push(' ')
        }
    }
}
