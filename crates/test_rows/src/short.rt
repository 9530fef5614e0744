// What is written short in rows.
use std::alloc::{AllocError, Global};

/// The text with each `{{N*TEXT}}` written out, as N times the text, the inner ones first.
pub fn expanded(alloc: Global, text: &str) -> Result<String, AllocError> {
    let mut made = String::from_str(alloc, text)?;
    for _ in 0..text.len() {
        match expanded_once(alloc, made.as_str())? {
            Some(next) => made = next,
            None => break,
        }
    }
    Ok(made)
}

/// The text with the first innermost `{{N*TEXT}}` written out; none if there is none.
fn expanded_once(alloc: Global, text: &str) -> Result<Option<String>, AllocError> {
    let Some((before, after)) = text.split_once("}}") else {
        return Ok(None);
    };
    let Some((before, inside)) = before.rsplit_once("{{") else {
        return Ok(None);
    };
    Ok(Some(put_together(alloc, before, inside, after)?))
}

/// The text of `N*TEXT` written out between two others.
fn put_together(
    alloc: Global,
    before: &str,
    inside: &str,
    after: &str,
) -> Result<String, AllocError> {
    let mut made = String::new(alloc);
    made.push_str(before)?;
    repeat(&mut made, inside)?;
    made.push_str(after)?;
    Ok(made)
}

/// Adds the text of `N*TEXT` N times.
fn repeat(made: &mut String, inside: &str) -> Result<(), AllocError> {
    let (count, piece) = inside.split_once('*').unwrap_or(("0", inside));
    for _ in 0..count.parse::<u32>().unwrap_or(0) {
        made.push_str(piece)?;
    }
    Ok(())
}

/// The bytes of a text in which `\s`, `\t`, `\r`, `\n`, `\0`, `\f` and `\p` are the blank, the tab, CR, LF, the bytes
/// 0 and 255, and the bar.
pub fn unescaped(alloc: Global, text: &str) -> Result<Vec<u8>, AllocError> {
    let mut bytes = Vec::new(alloc);
    push_unescaped(&mut bytes, text.as_bytes())?;
    Ok(bytes)
}

fn push_unescaped(bytes: &mut Vec<u8>, text: &[u8]) -> Result<(), AllocError> {
    let mut is_escaped = false;
    for byte in text {
        if !is_escaped && *byte == b'\\' {
            is_escaped = true;
        } else {
            bytes.push(if is_escaped { meant(*byte) } else { *byte })?;
            is_escaped = false;
        }
    }
    Ok(())
}

/// The byte that a letter means after a backslash.
fn meant(letter: u8) -> u8 {
    match letter {
        b's' => b' ',
        b't' => b'\t',
        b'r' => b'\r',
        b'n' => b'\n',
        b'0' => 0,
        b'f' => 255,
        b'p' => b'|',
        _ => letter,
    }
}
