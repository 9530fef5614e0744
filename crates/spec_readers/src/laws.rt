// The laws of what rows read. Each function does nothing, and its contract is what is shown.
ghost use Rattle.spec_readers.specs.Others.{OthersReadNothing};
ghost use Rattle.spec_readers.specs.Reads.{RowsReadReaders};

/// An instruction reads nothing but the operands that it reads by the table of operands, and the subscripts.
pub fn rows_read_readers()
    ensures { RowsReadReaders }
{}

/// An instruction that the cross reference doesn't list among a tag's readers reads nothing of the tag.
pub fn others_read_nothing()
    ensures { OthersReadNothing }
{}
