// Sets of numbers below `MAX_WATCHES` as bits of words.
ghost use Rattle.std.specs.Prelude.{◌≡◌, ◌≢◌, ℕ, ◌<◌, ◌||◌, true, false};
ghost use Rattle.lgx_image.specs.Words.{bit_of_words};
ghost use Rattle.lgx_watch.specs.declared.bits.TheConstants.{MAX_WATCHES};

/// The watched places of a project (profile).
pub const MAX_WATCHES: u32 = 256;

/// The words that keep a set of watched places, a bit for each.
pub(crate) const WORDS: usize = (MAX_WATCHES / u64::BITS) as usize;

/// The words without a bit.
pub(crate) fn no_bits() -> [u64; WORDS]
    ensures { (k : ℕ) → bit_of_words result k ≡ false }
{
    [0; WORDS]
}

/// Sets a bit.
pub(crate) fn set_bit(words: &mut [u64; WORDS], bit: u32)
    requires { bit < MAX_WATCHES }
    ensures set { bit_of_words words.new bit ≡ true }
    ensures others { (k : ℕ) → k ≢ bit → bit_of_words words.new k ≡ bit_of_words words.old k }
{
    words[(bit / u64::BITS) as usize] |= 1 << (bit % u64::BITS);
}

/// Sets all bits that are set in other words.
pub(crate) fn join_bits(words: &mut [u64; WORDS], more: &[u64; WORDS])
    ensures { (k : ℕ) → bit_of_words words.new k ≡ (bit_of_words words.old k || bit_of_words more.now k) }
{
    for at in 0..WORDS {
        words[at] |= more[at];
    }
}
