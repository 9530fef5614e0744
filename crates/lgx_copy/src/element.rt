// A step of a copy: one element.
ghost use Rattle.std.specs.Prelude.{◌≡◌, ◌+◌, ◌*◌, ◌^◌, ◌<◌, ◌≤◌, nat_lt, length, take};
ghost use Rattle.std.specs.Int.{w32, to_le_bytes};
ghost use Rattle.spec_base.specs.declared.limits.TheConstants.{MAX_IMAGE_BYTES};
ghost use Rattle.lgx_num.specs.Number.{low_bits};
ghost use Rattle.lgx_num.specs.Image.{splice};
ghost use Rattle.spec_scan.specs.Copies.{copy_element, after_element};
ghost use Rattle.spec_scan.specs.Fits.{IsFillSize};
ghost use Rattle.lgx_image.specs.Grains.{ChangesOnlyMarked};
ghost use Rattle.spec_scan.specs.CopyBounds.{CopyInBounds};

use lgx_image::Image;
use lgx_num::{Kind, Place};
use spec_scan::Copying;

/// Copies one element, read whole before it is written, and answers whether one is left.
///
/// There must be an element left, and what is left must lie in the image.
pub fn next(copying: &mut Copying, image: &mut Image) -> bool
    requires left { 0 < copying.old.left }
    requires lies { CopyInBounds copying.old (length image.old.bytes) }
    ensures more { result ≡ nat_lt 0 copying.new.left }
    ensures copying { copying.new ≡ after_element copying.old }
    ensures bytes { image.new.bytes ≡ copy_element copying.old image.old.bytes }
    ensures only_marked { ChangesOnlyMarked image.old image.new }
    ensures lies { CopyInBounds copying.new (length image.new.bytes) }
{
    // The bytes of an image are few, so the sums in `advance` fit.
    prove!(copying.target <= image.len());
    copy_element(*copying, image);
    advance(copying);
    copying.left > 0
}

/// Goes on after an element.
fn advance(copying: &mut Copying)
    requires left { 0 < copying.old.left }
    requires source { copying.old.source + copying.old.size < 2 ^ 32 }
    requires target { copying.old.target + copying.old.size < 2 ^ 32 }
    ensures { copying.new ≡ after_element copying.old }
{
    copying.source += copying.size;
    copying.target += copying.size;
    copying.left -= 1;
}

/// Writes one element: the value of a fill, or what the source has now.
fn copy_element(copying: Copying, image: &mut Image)
    requires left { 0 < copying.left }
    requires lies { CopyInBounds copying (length image.old.bytes) }
    ensures bytes { image.new.bytes ≡ copy_element copying image.old.bytes }
    ensures only_marked { ChangesOnlyMarked image.old image.new }
{
    match copying.fill {
        Some(value) => fill(value, copying.target, copying.size, image),
        None => image.copy_element(copying.source, copying.target, copying.size),
    }
}

/// Stores the low bits of a value from byte `target` on.
fn fill(value: i32, target: u32, size: u32, image: &mut Image)
    requires size { IsFillSize size }
    requires target { target + size ≤ length image.old.bytes }
    ensures bytes { image.new.bytes ≡ splice image.old.bytes target (take size (to_le_bytes w32 (low_bits 32 value))) }
    ensures only_marked { ChangesOnlyMarked image.old image.new }
{
    // The bytes of an image are few, so the number of a bit fits.
    prove!(target <= image.len());
    match size {
        1 => image.put(place_at(Kind::Sint, target), value),
        2 => image.put(place_at(Kind::Int, target), value),
        4 => image.put(place_at(Kind::Dint, target), value),
        _ => unreachable!(),
    }
}

/// The place of a kind that begins at a byte.
fn place_at(kind: Kind, byte: u32) -> Place
    requires { byte ≤ MAX_IMAGE_BYTES }
    ensures { result ≡ record { kind = kind; at = 8 * byte } }
{
    Place { kind, at: 8 * byte }
}
