// The image: the bytes of all tags, with the marks of what was written and the hits of what changed.
ghost use Rattle.std.specs.Prelude.{◌≡◌, ℕ, ◌+◌, ◌*◌, ◌/◌, ◌%◌, ◌<◌, ◌≤◌, length, replicate, slice_set, true, false, IfOk, IfSome, option_map};
ghost use Rattle.std.specs.List.{All};
ghost use Rattle.spec_base.specs.declared.limits.TheConstants.{MAX_IMAGE_BYTES, MAX_BOUND_OPERANDS};
ghost use Rattle.lgx_num.specs.Image.{number, number_of, write, write_of, piece, splice, InBounds, bit_of};
ghost use Rattle.lgx_num.specs.Paths.{OperandInBounds};
ghost use Rattle.spec_scan.specs.Arguments.{bind, bind_one, value_of, is_one, bit_number};
ghost use Rattle.spec_scan.specs.Executable.{EndsIn, ArgsEndIn};
ghost use Rattle.spec_scan.specs.Fits.{OperandsFit, ArgsFit};
ghost use Rattle.lgx_rung.specs.declared.op.Op.{Op};
ghost use Rattle.lgx_num.specs.Number.{bytes_in};
ghost use Rattle.lgx_image.specs.Grains.{grains_in, is_marked, mark_range, watch_range, NextMarked, HitsWritten, ChangesOnlyMarked, NoneIsHit, SomeIsHit, NextHit};
ghost use Rattle.lgx_image.specs.Args.{place_at, CellInBounds, OperandsInBounds};
ghost use Rattle.spec_scan.specs.ArgBounds.{ArgInBounds, ArgsInBounds};
ghost use Rattle.lgx_image.specs.Laws.{AllWatched};

use crate::bytes::{
    bit_at, copy_piece, dint_at, first_bit, is_bit, is_stored, number_at, write_bit, write_byte,
    write_dint,
};
use crate::grain::{GRAIN, Marks};
use crate::hits::{Hits, WORD_BYTES, word_of};
use crate::operands::{bind_all, bind_one};
use lgx_num::{Kind, Memory, Operand, Path, Place, bytes_in, bytes_of};
use spec_scan::{Arg, Bound};
use std::alloc::Global;
use std::marker::Model;

/// The bytes of all tags, a mark for each grain of them in which a byte was written, and the words that are watched and hit.
///
/// A grain is a run of `GRAIN` bytes and a word one of `WORD_BYTES`, counted from 0; the last may be shorter. A watched word is
/// hit when a byte of it changes.
#[derive(Drop)]
pub struct Image {
    pub(crate) bytes: Vec<u8>,
    pub(crate) marks: Marks,
    pub(crate) hits: Hits,
}

impl Model for Image {
    ghost use Rattle.std.specs.Prelude.{◌≤◌, length};
    ghost use Rattle.spec_base.specs.declared.limits.TheConstants.{MAX_IMAGE_BYTES};
    ghost use Rattle.lgx_image.specs.Grains.{ImageView, grains_in};
    ghost use Rattle.lgx_image.specs.Words.{flags_of};

    ghost Value = { ImageView };

    ghost view = { λ i. record { bytes = i.bytes.items; marks = flags_of i.marks (grains_in (length i.bytes.items)); watched = i.hits.watched; hits = i.hits.hits } };

    ghost invariant = { λ i. length i.bytes.items ≤ MAX_IMAGE_BYTES };
}

impl Image {
    /// An image of `len` bytes, all 0, with no mark, of which no word is watched or hit.
    pub fn new(alloc: Global, len: u32) -> Result<Image, Memory>
        requires { len ≤ MAX_IMAGE_BYTES }
        ensures bytes { IfOk result (λ image. image.bytes ≡ replicate len 0) }
        ensures marks { IfOk result (λ image. image.marks ≡ replicate (grains_in len) false) }
        ensures watched { IfOk result (λ image. (word : ℕ) → is_marked image.watched word ≡ false) }
        ensures hits { IfOk result NoneIsHit }
    {
        let bytes = vec![in alloc; 0; len as usize]?;
        let hits = Hits::new(alloc)?;
        Ok(Image {
            bytes,
            marks: Marks::new(),
            hits,
        })
    }

    /// The number of bytes.
    pub fn len(&self) -> u32
        ensures value { result ≡ length self.now.bytes }
        ensures room { result ≤ MAX_IMAGE_BYTES }
        ensures grains { length self.now.marks ≡ grains_in result }
    {
        self.bytes.len() as u32
    }

    /// The number at a place, which lies in the image.
    #[inline]
    pub fn get(&self, place: Place) -> i32
        requires { InBounds place (length self.now.bytes) }
        ensures { result ≡ number self.now.bytes place }
    {
        number_at(&self.bytes, place)
    }

    /// Stores the low bits of a value at a place, which lies in the image. The grains of its bytes are marked, and a watched word
    /// in which a byte changes is hit.
    #[inline]
    pub fn put(&mut self, place: Place, value: i32)
        requires { InBounds place (length self.old.bytes) }
        ensures bytes { self.new.bytes ≡ write self.old.bytes place value }
        ensures marks { self.new.marks ≡ mark_range self.old.marks (place.at / 8) (bytes_in place.kind) }
        ensures hits { HitsWritten self.old self.new }
        ensures only_marked { ChangesOnlyMarked self.old self.new }
    {
        self.store(place, value);
    }

    /// Stores the low bits of a value at a place, which lies in the image, if they aren't there yet: then the grains of its bytes
    /// are marked, and a watched word in which a byte changes is hit.
    #[inline(always)]
    pub fn change(&mut self, place: Place, value: i32)
        requires { InBounds place (length self.old.bytes) }
        ensures bytes { self.new.bytes ≡ write self.old.bytes place value }
        ensures hits { HitsWritten self.old self.new }
        ensures only_marked { ChangesOnlyMarked self.old self.new }
    {
        if !is_stored(&self.bytes, place, value) {
            self.put(place, value);
        }
    }

    /// Stores the low bits of a value at a place.
    #[inline(always)]
    fn store(&mut self, place: Place, value: i32)
        requires { InBounds place (length self.old.bytes) }
        ensures grains { length self.old.marks ≡ grains_in (length self.old.bytes) }
        ensures bytes { self.new.bytes ≡ write self.old.bytes place value }
        ensures marks { self.new.marks ≡ mark_range self.old.marks (place.at / 8) (bytes_in place.kind) }
        ensures watched { self.new.watched ≡ self.old.watched }
        ensures hits { HitsWritten self.old self.new }
    {
        let at = place.at / 8;
        let low = bytes_of(value);
        match place.kind {
            Kind::Bool => self.store_bit(place.at, low[0] % 2 == 1),
            Kind::Sint => {
                self.marks.mark_inside(at, 1);
                self.store_byte(at, low[0]);
            }
            Kind::Int => {
                self.marks.mark_range(at, 2);
                self.store_byte(at, low[0]);
                self.store_byte(at + 1, low[1]);
            }
            Kind::Dint => self.store_dint(at, value),
        }
    }

    /// Stores a byte, without a mark.
    #[inline(always)]
    fn store_byte(&mut self, at: u32, byte: u8)
        requires { at < length self.old.bytes }
        ensures bytes { self.new.bytes ≡ slice_set self.old.bytes at byte }
        ensures marks { self.new.marks ≡ self.old.marks }
        ensures watched { self.new.watched ≡ self.old.watched }
        ensures hits { HitsWritten self.old self.new }
    {
        if write_byte(&mut self.bytes, at as usize, byte) {
            self.hits.note(word_of(at));
        }
    }

    /// Whether the bit at a place, which lies in the image, is 1.
    #[inline(always)]
    pub fn bit(&self, place: Place) -> bool
        requires { InBounds place (length self.now.bytes) }
        ensures { result ≡ is_one (number self.now.bytes place) }
    {
        match place.kind {
            Kind::Bool => bit_at(&self.bytes, place.at),
            _ => self.get(place) > 0,
        }
    }

    /// Puts a bit at a place, which lies in the image. The grains of its bytes are marked, and a watched word in which a byte
    /// changes is hit.
    #[inline]
    pub fn put_bit(&mut self, place: Place, bit: bool)
        requires { InBounds place (length self.old.bytes) }
        ensures bytes { self.new.bytes ≡ write self.old.bytes place (bit_number bit) }
        ensures marks { self.new.marks ≡ mark_range self.old.marks (place.at / 8) (bytes_in place.kind) }
        ensures hits { HitsWritten self.old self.new }
        ensures only_marked { ChangesOnlyMarked self.old self.new }
    {
        match place.kind {
            Kind::Bool => self.put_bit_at(place.at, bit),
            _ => self.put(place, i32::from(bit)),
        }
    }

    /// Whether the bit of this number is 1.
    #[inline(always)]
    pub fn bit_at(&self, bit: u32) -> bool
        requires { bit / 8 < length self.now.bytes }
        ensures { result ≡ is_one (number_of Kind.Bool self.now.bytes bit) }
    {
        bit_at(&self.bytes, bit)
    }

    /// Puts the bit of this number. The grain of its byte is marked, and its word is hit if it is watched and the byte changes.
    #[inline(always)]
    pub fn put_bit_at(&mut self, bit: u32, value: bool)
        requires { bit / 8 < length self.old.bytes }
        ensures bytes { self.new.bytes ≡ write_of Kind.Bool self.old.bytes bit (bit_number value) }
        ensures marks { self.new.marks ≡ mark_range self.old.marks (bit / 8) 1 }
        ensures hits { HitsWritten self.old self.new }
        ensures only_marked { ChangesOnlyMarked self.old self.new }
    {
        self.store_bit(bit, value);
    }

    /// Puts the bit of this number if it isn't there yet: then the grain of its byte is marked, and its word is hit if it is watched.
    #[inline(always)]
    pub fn change_bit_at(&mut self, bit: u32, value: bool)
        requires { bit / 8 < length self.old.bytes }
        ensures bytes { self.new.bytes ≡ write_of Kind.Bool self.old.bytes bit (bit_number value) }
        ensures hits { HitsWritten self.old self.new }
        ensures only_marked { ChangesOnlyMarked self.old self.new }
    {
        if !is_bit(&self.bytes, bit, value) {
            self.put_bit_at(bit, value);
        }
    }

    /// Stores the bit of this number.
    #[inline(always)]
    fn store_bit(&mut self, bit: u32, value: bool)
        requires { bit / 8 < length self.old.bytes }
        ensures grains { length self.old.marks ≡ grains_in (length self.old.bytes) }
        ensures bytes { self.new.bytes ≡ write_of Kind.Bool self.old.bytes bit (bit_number value) }
        ensures marks { self.new.marks ≡ mark_range self.old.marks (bit / 8) 1 }
        ensures watched { self.new.watched ≡ self.old.watched }
        ensures hits { HitsWritten self.old self.new }
    {
        self.marks.mark_inside(bit / 8, 1);
        if write_bit(&mut self.bytes, bit, value) {
            self.hits.note(word_of(bit / 8));
        }
    }

    /// The DINT that begins at a byte.
    #[inline(always)]
    pub fn dint(&self, byte: u32) -> i32
        requires { byte + 4 ≤ length self.now.bytes }
        ensures { result ≡ number_of Kind.Dint self.now.bytes (8 * byte) }
    {
        dint_at(&self.bytes, byte)
    }

    /// Stores a DINT that begins at a byte. The grains of its bytes are marked, and a watched word in which a byte changes is hit.
    #[inline(always)]
    pub fn put_dint(&mut self, byte: u32, value: i32)
        requires { byte + 4 ≤ length self.old.bytes }
        ensures bytes { self.new.bytes ≡ write_of Kind.Dint self.old.bytes (8 * byte) value }
        ensures marks { self.new.marks ≡ mark_range self.old.marks byte 4 }
        ensures hits { HitsWritten self.old self.new }
        ensures only_marked { ChangesOnlyMarked self.old self.new }
    {
        self.store_dint(byte, value);
    }

    /// Stores a DINT that begins at a byte, if it isn't there yet: then the grains of its bytes are marked, and a watched word in
    /// which a byte changes is hit.
    #[inline(always)]
    pub fn change_dint(&mut self, byte: u32, value: i32)
        requires { byte + 4 ≤ length self.old.bytes }
        ensures bytes { self.new.bytes ≡ write_of Kind.Dint self.old.bytes (8 * byte) value }
        ensures hits { HitsWritten self.old self.new }
        ensures only_marked { ChangesOnlyMarked self.old self.new }
    {
        if dint_at(&self.bytes, byte) != value {
            self.put_dint(byte, value);
        }
    }

    /// Stores a DINT that begins at a byte.
    #[inline(always)]
    fn store_dint(&mut self, byte: u32, value: i32)
        requires { byte + 4 ≤ length self.old.bytes }
        ensures grains { length self.old.marks ≡ grains_in (length self.old.bytes) }
        ensures bytes { self.new.bytes ≡ write_of Kind.Dint self.old.bytes (8 * byte) value }
        ensures marks { self.new.marks ≡ mark_range self.old.marks byte 4 }
        ensures watched { self.new.watched ≡ self.old.watched }
        ensures hits { HitsWritten self.old self.new }
    {
        if byte % WORD_BYTES == 0 {
            self.store_word(byte, value);
        } else {
            self.store_bytes(byte, value);
        }
    }

    /// Stores a DINT that fills a word.
    #[inline(always)]
    fn store_word(&mut self, byte: u32, value: i32)
        requires lies { byte + 4 ≤ length self.old.bytes }
        requires aligned { byte % WORD_BYTES ≡ 0 }
        ensures grains { length self.old.marks ≡ grains_in (length self.old.bytes) }
        ensures bytes { self.new.bytes ≡ write_of Kind.Dint self.old.bytes (8 * byte) value }
        ensures marks { self.new.marks ≡ mark_range self.old.marks byte 4 }
        ensures watched { self.new.watched ≡ self.old.watched }
        ensures hits { HitsWritten self.old self.new }
    {
        let differs = write_dint(&mut self.bytes, byte, value);
        self.marks.mark_inside(byte, 4);
        if differs {
            self.hits.note(word_of(byte));
        }
    }

    /// Stores the bytes of a DINT that may lie in two words.
    #[cold]
    #[inline(never)]
    fn store_bytes(&mut self, byte: u32, value: i32)
        requires { byte + 4 ≤ length self.old.bytes }
        ensures grains { length self.old.marks ≡ grains_in (length self.old.bytes) }
        ensures bytes { self.new.bytes ≡ write_of Kind.Dint self.old.bytes (8 * byte) value }
        ensures marks { self.new.marks ≡ mark_range self.old.marks byte 4 }
        ensures watched { self.new.watched ≡ self.old.watched }
        ensures hits { HitsWritten self.old self.new }
    {
        let low = bytes_of(value);
        self.marks.mark_range(byte, 4);
        self.store_byte(byte, low[0]);
        self.store_byte(byte + 1, low[1]);
        self.store_byte(byte + 2, low[2]);
        self.store_byte(byte + 3, low[3]);
    }

    /// The number that an operand is, or that is at its place; 0 for any other operand. Its place lies in the image.
    pub fn value(&self, arg: Arg) -> i32
        requires { ArgInBounds arg (length self.now.bytes) }
        ensures { result ≡ value_of self.now.bytes arg }
    {
        match arg {
            Arg::Number(number) => number,
            Arg::Cell(place) => self.get(place),
            _ => 0,
        }
    }

    /// Copies `size` bytes from byte `source` to byte `target`, read whole before they are written. The grains of the bytes from
    /// `target` on are marked, and a watched word in which a byte changes is hit.
    pub fn copy_element(&mut self, source: u32, target: u32, size: u32)
        requires source { source + size ≤ length self.old.bytes }
        requires target { target + size ≤ length self.old.bytes }
        ensures bytes { self.new.bytes ≡ splice self.old.bytes target (piece self.old.bytes source size) }
        ensures marks { self.new.marks ≡ mark_range self.old.marks target size }
        ensures hits { HitsWritten self.old self.new }
        ensures only_marked { ChangesOnlyMarked self.old self.new }
    {
        self.copy(source, target, size);
    }

    /// Copies bytes. An element that fills a word is stored as one.
    #[inline(always)]
    fn copy(&mut self, source: u32, target: u32, size: u32)
        requires source { source + size ≤ length self.old.bytes }
        requires target { target + size ≤ length self.old.bytes }
        ensures grains { length self.old.marks ≡ grains_in (length self.old.bytes) }
        ensures bytes { self.new.bytes ≡ splice self.old.bytes target (piece self.old.bytes source size) }
        ensures marks { self.new.marks ≡ mark_range self.old.marks target size }
        ensures watched { self.new.watched ≡ self.old.watched }
        ensures hits { HitsWritten self.old self.new }
    {
        if size == WORD_BYTES && target % WORD_BYTES == 0 {
            self.copy_word(source, target);
        } else {
            self.copy_bytes(source, target, size);
        }
    }

    /// Copies four bytes that fill a word.
    #[inline(always)]
    fn copy_word(&mut self, source: u32, target: u32)
        requires source { source + 4 ≤ length self.old.bytes }
        requires target { target + 4 ≤ length self.old.bytes }
        requires aligned { target % WORD_BYTES ≡ 0 }
        ensures grains { length self.old.marks ≡ grains_in (length self.old.bytes) }
        ensures bytes { self.new.bytes ≡ splice self.old.bytes target (piece self.old.bytes source 4) }
        ensures marks { self.new.marks ≡ mark_range self.old.marks target 4 }
        ensures watched { self.new.watched ≡ self.old.watched }
        ensures hits { HitsWritten self.old self.new }
    {
        let value = dint_at(&self.bytes, source);
        self.store_word(target, value);
    }

    /// Copies bytes that may lie in any words.
    fn copy_bytes(&mut self, source: u32, target: u32, size: u32)
        requires source { source + size ≤ length self.old.bytes }
        requires target { target + size ≤ length self.old.bytes }
        ensures grains { length self.old.marks ≡ grains_in (length self.old.bytes) }
        ensures bytes { self.new.bytes ≡ splice self.old.bytes target (piece self.old.bytes source size) }
        ensures marks { self.new.marks ≡ mark_range self.old.marks target size }
        ensures watched { self.new.watched ≡ self.old.watched }
        ensures hits { HitsWritten self.old self.new }
    {
        self.hits.note_copy(&self.bytes, source, target, size);
        copy_piece(&mut self.bytes, source, target, size);
        self.marks.mark_range(target, size);
    }

    /// The place that a path leads to; None if a subscript is negative or not below its length.
    pub fn place(&self, path: &Path) -> Option<Place>
        requires { CellInBounds path.now (length self.now.bytes) }
        ensures value { result ≡ option_map (place_at path.now.kind) (bit_of self.now.bytes path.now) }
        ensures lies { IfSome result (λ place. InBounds place (length self.now.bytes)) }
    {
        let at = first_bit(&self.bytes, path)?;
        Some(Place {
            kind: path.kind,
            at,
        })
    }

    /// The operands of an instruction with their places worked out; None if a subscript is negative or not below its
    /// length.
    pub fn bind(&self, args: &[Operand]) -> Option<Bound>
        requires room { length args.now ≤ MAX_BOUND_OPERANDS }
        requires lie { OperandsInBounds args.now (length self.now.bytes) }
        ensures value { result ≡ bind self.now.bytes args.now }
        ensures lie { IfSome result (λ bound. ArgsInBounds bound (length self.now.bytes)) }
        ensures fit { (op : Op) → OperandsFit op args.now → IfSome result (λ bound. ArgsFit op bound) }
        ensures ends { (len : ℕ) → All (EndsIn len) args.now → IfSome result (λ bound. ArgsEndIn len bound) }
    {
        bind_all(&self.bytes, args)
    }

    /// An operand with its place worked out; None if a subscript is negative or not below its length.
    pub fn bind_one(&self, operand: &Operand) -> Option<Arg>
        requires { OperandInBounds operand.now (length self.now.bytes) }
        ensures value { result ≡ bind_one self.now.bytes operand.now }
        ensures lies { IfSome result (λ arg. ArgInBounds arg (length self.now.bytes)) }
    {
        bind_one(&self.bytes, operand)
    }

    /// The words in which a place lies are watched from now on.
    pub fn watch(&mut self, place: Place)
        requires { InBounds place (length self.old.bytes) }
        ensures image { self.new ≡ record self.old { watched = watch_range self.old.watched (place.at / 8) (bytes_in place.kind) } }
        ensures watched { AllWatched self.new.watched place }
    {
        self.hits.watch_range(place.at / 8, bytes_in(place.kind));
    }

    /// Whether a word is hit.
    #[inline(always)]
    pub fn is_hit(&self) -> bool
        ensures some { result ≡ true → SomeIsHit self.now }
        ensures none { result ≡ false → NoneIsHit self.now }
    {
        self.hits.is_hit()
    }

    /// The least word that is hit and isn't below `from`; None if there is none.
    pub fn next_hit(&self, from: u32) -> Option<u32>
        ensures { NextHit self.now from result }
    {
        self.hits.next(from)
    }

    /// No word is hit from now on; all else stays.
    pub fn clear_hits(&mut self)
        ensures bytes { self.new.bytes ≡ self.old.bytes }
        ensures marks { self.new.marks ≡ self.old.marks }
        ensures watched { self.new.watched ≡ self.old.watched }
        ensures hits { NoneIsHit self.new }
    {
        self.hits.clear();
    }

    /// The least marked grain that isn't below `from`; None if there is none.
    pub fn next_marked(&self, from: u32) -> Option<u32>
        ensures { NextMarked self.now.marks from result }
    {
        let next = self.marks.next(from)?;
        if next < self.len().div_ceil(GRAIN) {
            Some(next)
        } else {
            None
        }
    }

    /// Takes every mark; all else stays.
    pub fn clear_marks(&mut self)
        ensures { self.new ≡ record self.old { marks = replicate (length self.old.marks) false } }
    {
        self.marks.clear();
    }
}
