// Laws of arithmetic. Each is the contract of a function that does nothing.
ghost use Rattle.lgx_math.specs.Laws.{RemainderIsLeft, RemainderIsLess, RemainderHasTheSign, StoredIsExact, MaskedBitsAreMoved, OtherBitsStay};

/// DIV and MOD belong together: the remainder is what the quotient leaves, less than the divisor, with the sign of the
/// dividend.
pub fn law_of_quotients()
    ensures left { RemainderIsLeft }
    ensures less { RemainderIsLess }
    ensures sign { RemainderHasTheSign }
{}

/// Without an overflow the exact result is stored.
pub fn law_of_overflow()
    ensures { StoredIsExact }
{}

/// MVM takes a bit from the source if the mask has a 1 there, and else leaves it.
pub fn law_of_masks()
    ensures moved { MaskedBitsAreMoved }
    ensures others { OtherBitsStay }
{}
