// The texts that rows name.
use std::alloc::{AllocError, Global};

/// A text by its name.
#[derive(Drop)]
struct Text {
    name: String,
    contents: Vec<u8>,
}

impl Text {
    fn new(alloc: Global) -> Text {
        Text {
            name: String::new(alloc),
            contents: Vec::new(alloc),
        }
    }
}

/// The texts by their names.
#[derive(Drop)]
pub struct Texts {
    pub alloc: Global,
    texts: Vec<Text>,
}

impl Texts {
    /// No texts.
    pub fn new(alloc: Global) -> Texts {
        Texts {
            alloc,
            texts: Vec::new(alloc),
        }
    }

    /// Gives a text a name, which no earlier one has from then on.
    pub fn name(&mut self, name: &str, contents: &str) -> Result<(), AllocError> {
        self.texts.push(Text::new(self.alloc))?;
        if let Some(text) = self.texts.last_mut() {
            text.name.push_str(name)?;
            push_plain(&mut text.contents, contents)?;
        }
        Ok(())
    }

    /// Adds to the text of a name.
    pub fn add(&mut self, name: &str, contents: &str) -> Result<(), AllocError> {
        for text in self.texts.iter_mut().rev() {
            if text.name.as_str() == name {
                return push_plain(&mut text.contents, contents);
            }
        }
        self.name(name, contents)
    }

    /// The text of a name.
    pub fn get(&self, name: &str) -> Option<&[u8]> {
        for text in self.texts.iter().rev() {
            if text.name.as_str() == name {
                return Some(&text.contents);
            }
        }
        None
    }
}

/// Adds the bytes of a text in which `\n` stands for a line feed, `\s` for a blank and `\t` for a tabulator.
pub fn push_plain(bytes: &mut Vec<u8>, text: &str) -> Result<(), AllocError> {
    let mut escaped = false;
    for byte in text.as_bytes() {
        if escaped {
            push_escaped(bytes, *byte)?;
            escaped = false;
        } else if *byte == b'\\' {
            escaped = true;
        } else {
            bytes.push(*byte)?;
        }
    }
    Ok(())
}

/// Adds what stands for a backslash and a byte after it.
fn push_escaped(bytes: &mut Vec<u8>, byte: u8) -> Result<(), AllocError> {
    match byte {
        b'n' => bytes.push(b'\n')?,
        b's' => bytes.push(b' ')?,
        b't' => bytes.push(b'\t')?,
        b'\\' => bytes.push(b'\\')?,
        _ => bytes.extend_from_slice(&[b'\\', byte])?,
    }
    Ok(())
}
