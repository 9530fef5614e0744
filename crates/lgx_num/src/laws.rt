// Laws of the definitions of numbers and of the image. Each is the contract of a function that does nothing.
ghost use Rattle.lgx_num.specs.Laws.{KeptIsInRange, KeptHasTheLowBits, ValueInRangeIsKept, NumberOfItsBytes, BytesOfTheirNumber, ReadsWhatWasWritten, OtherPlacesStay, WriteKeepsLength, SubscriptsStayInRange, SameInLowerCase};

/// What is kept of a value is the number in the kind's range that has the value's low bits, and a value in range is kept.
pub fn law_of_low_bits()
    ensures range { KeptIsInRange }
    ensures bits { KeptHasTheLowBits }
    ensures kept { ValueInRangeIsKept }
{}

/// Each number of 32 bits is the number of its bytes, and four bytes are the bytes of their number.
pub fn law_of_bytes()
    ensures number { NumberOfItsBytes }
    ensures bytes { BytesOfTheirNumber }
{}

/// A write is read back, changes no place that shares no bit with it, and keeps the image's length.
pub fn law_of_writes()
    ensures read { ReadsWhatWasWritten }
    ensures others { OtherPlacesStay }
    ensures length { WriteKeepsLength }
{}

/// Subscripts that can be worked out lead by numbers from 0 and below their lengths.
pub fn law_of_subscripts()
    ensures { SubscriptsStayInRange }
{}

/// Two names are one if they are spelled alike in lower case.
pub fn law_of_names()
    ensures { SameInLowerCase }
{}
