// What a row gives to a call.
use crate::fields::{cut, unsigned_of};
use std::alloc::{AllocError, Global};
use test_rows::{Texts, push_plain};

/// A file by its name.
pub(crate) type File = (String, Vec<u8>);

/// What a row gives: `WORDS / SETTINGS`.
#[derive(Drop)]
pub(crate) struct Case {
    pub words: Vec<String>,
    pub files: Vec<File>,
    /// The numbers of the reads that fail.
    pub reads: Vec<u32>,
    /// The numbers of the puts that fail, and how many bytes each keeps.
    pub puts: Vec<(u32, u32)>,
}

impl Case {
    /// A case of which nothing is given yet.
    pub(crate) fn new(alloc: Global) -> Case {
        Case {
            words: Vec::new(alloc),
            files: Vec::new(alloc),
            reads: Vec::new(alloc),
            puts: Vec::new(alloc),
        }
    }

    /// Adds what a row gives. Each word that is the name of a text is the name of a file with its contents, unless a setting
    /// gives that file.
    pub(crate) fn add(&mut self, texts: &Texts, given: &str) -> Result<(), AllocError> {
        let (words, settings) = cut(given, " / ");
        for setting in settings.split_whitespace() {
            self.set(texts, setting)?;
        }
        for word in words.split_whitespace() {
            self.add_word(texts, word)?;
        }
        Ok(())
    }

    fn set(&mut self, texts: &Texts, setting: &str) -> Result<(), AllocError> {
        let (name, value) = cut(setting, "=");
        match name {
            "read" => self.reads.push(unsigned_of(value))?,
            "put" => self.puts.push(pair_of(value))?,
            _ => self.add_file(texts, name, value)?,
        }
        Ok(())
    }

    fn add_word(&mut self, texts: &Texts, word: &str) -> Result<(), AllocError> {
        if word == "-" {
            return Ok(());
        }
        push_word(texts.alloc, &mut self.words, word)?;
        if texts.get(word).is_some() && !self.has_file(word) {
            self.add_file(texts, word, word)?;
        }
        Ok(())
    }

    fn has_file(&self, name: &str) -> bool {
        for file in &self.files {
            if file.0.as_str() == name {
                return true;
            }
        }
        false
    }

    /// Adds a file. Its contents are a text's name, `*N` for N blanks, or the bytes themselves.
    fn add_file(&mut self, texts: &Texts, name: &str, contents: &str) -> Result<(), AllocError> {
        push_file(texts.alloc, &mut self.files, name, &[])?;
        if let Some(file) = self.files.last_mut() {
            push_contents(texts, &mut file.1, contents)?;
        }
        Ok(())
    }
}

/// Adds a word to a list.
pub(crate) fn push_word(
    alloc: Global,
    words: &mut Vec<String>,
    word: &str,
) -> Result<(), AllocError> {
    words.push(String::new(alloc))?;
    if let Some(last) = words.last_mut() {
        last.push_str(word)?;
    }
    Ok(())
}

/// Adds a file to a list.
pub(crate) fn push_file(
    alloc: Global,
    files: &mut Vec<File>,
    name: &str,
    contents: &[u8],
) -> Result<(), AllocError> {
    files.push((String::new(alloc), Vec::new(alloc)))?;
    if let Some(file) = files.last_mut() {
        file.0.push_str(name)?;
        file.1.extend_from_slice(contents)?;
    }
    Ok(())
}

fn push_contents(texts: &Texts, bytes: &mut Vec<u8>, contents: &str) -> Result<(), AllocError> {
    if let Some(text) = texts.get(contents) {
        return bytes.extend_from_slice(text);
    }
    let (before, count) = cut(contents, "*");
    if before.is_empty() && !count.is_empty() {
        return bytes.resize(unsigned_of(count) as usize, b' ');
    }
    push_plain(bytes, contents)
}

fn pair_of(pair: &str) -> (u32, u32) {
    let (first, second) = cut(pair, ":");
    (unsigned_of(first), unsigned_of(second))
}
