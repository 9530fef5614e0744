// Images copied and compared.
ghost use Rattle.std.specs.Prelude.{◌≡◌, true, IfOk};

use crate::image::Image;
use lgx_num::Memory;
use std::alloc::Global;

/// Whether the bytes are the same.
fn same_bytes(a: &[u8], b: &[u8]) -> bool
    ensures { result ≡ true → a.now ≡ b.now }
{
    if a.len() != b.len() {
        return false;
    }
    for i in 0..a.len() {
        if a[i] != b[i] {
            return false;
        }
    }
    true
}

/// Whether the words of bits are the same.
pub(crate) fn same_words(a: &[u64], b: &[u64]) -> bool
    ensures { result ≡ true → a.now ≡ b.now }
{
    if a.len() != b.len() {
        return false;
    }
    for i in 0..a.len() {
        if a[i] != b[i] {
            return false;
        }
    }
    true
}

/// Whether the marks are the same.
pub(crate) fn same_flags(a: &[bool], b: &[bool]) -> bool
    ensures { result ≡ true → a.now ≡ b.now }
{
    if a.len() != b.len() {
        return false;
    }
    for i in 0..a.len() {
        if a[i] != b[i] {
            return false;
        }
    }
    true
}

impl Image {
    /// The image once more, with its marks and hits.
    pub fn copied(&self, alloc: Global) -> Result<Image, Memory>
        ensures { IfOk result (λ copy. copy ≡ self.now) }
    {
        let bytes = Vec::from_slice(alloc, &self.bytes)?;
        let hits = self.hits.copied(alloc)?;
        Ok(Image {
            bytes,
            marks: self.marks.copied(),
            hits,
        })
    }

    /// Whether the images are the same, with their marks and hits.
    pub fn is_same(&self, other: &Image) -> bool
        ensures { result ≡ true → self.now ≡ other.now }
    {
        self.marks.is_same(&other.marks)
            && self.hits.is_same(&other.hits)
            && same_bytes(&self.bytes, &other.bytes)
    }
}
