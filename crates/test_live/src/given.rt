// What a row gives to a call.
use std::alloc::{AllocError, Global};
use test_rows::{Texts, expanded, unescaped};

/// A file by its name.
pub(crate) type File = (String, Vec<u8>);

/// What comes in, as a row writes it.
pub(crate) fn sent_of(alloc: Global, given: &str) -> Result<Vec<u8>, AllocError> {
    let written_out = expanded(alloc, given)?;
    unescaped(alloc, written_out.as_str())
}

/// Adds the words of a call, and a file for each that is the name of a text.
pub(crate) fn push_words(
    texts: &Texts,
    given: &str,
    words: &mut Vec<String>,
    files: &mut Vec<File>,
) -> Result<(), AllocError> {
    for word in given.split_whitespace() {
        words.push(String::from_str(texts.alloc, word)?)?;
        if let Some(text) = texts.get(word) {
            push_file(texts.alloc, word, text, files)?;
        }
    }
    Ok(())
}

fn push_file(
    alloc: Global,
    name: &str,
    contents: &[u8],
    files: &mut Vec<File>,
) -> Result<(), AllocError> {
    files.push((String::new(alloc), Vec::new(alloc)))?;
    if let Some(file) = files.last_mut() {
        file.0.push_str(name)?;
        file.1.extend_from_slice(contents)?;
    }
    Ok(())
}

/// Does what a setting says: notes the first read as one that fails, or has blanks in place of each file's contents.
pub(crate) fn set(
    setting: &str,
    files: &mut [File],
    failing: &mut Vec<u32>,
) -> Result<(), AllocError> {
    if setting == "read" {
        failing.push(1)?;
    }
    if let Some((_, count)) = setting.split_once("blanks=") {
        for file in files {
            file.1.clear();
            file.1.resize(count.parse::<usize>().unwrap_or(0), b' ')?;
        }
    }
    Ok(())
}
