// Laws of layout, of resolution and of checked text, over the definitions alone.
ghost use Rattle.spec_language.specs.CheckedLaws.{CheckedInBounds, KeepsOutline};
ghost use Rattle.spec_language.specs.FormLaws.{ReadsForms};
ghost use Rattle.spec_language.specs.LayoutLaws.{FaultlessIsSound, OrderedHasNoRings, SizesAreTheOnly};
ghost use Rattle.spec_language.specs.ResolutionLaws.{FixedInBounds, FoundInBounds};

/// Structures without a fault have sizes that their members give with these same sizes, and no others are such.
pub fn sizes_are_settled()
    ensures sound { FaultlessIsSound }
    ensures only { SizesAreTheOnly }
{}

/// Structures that can be put in order, each after those inside it, don't reach themselves.
pub fn ordered_types_have_no_rings()
    ensures { OrderedHasNoRings }
{}

/// A text is read as an operand form exactly where the grammar spells that form by it.
pub fn forms_are_read()
    ensures { ReadsForms }
{}

/// What an operand names lies in the image for all subscripts in range.
pub fn found_is_in_bounds()
    ensures any { FoundInBounds }
    ensures fixed { FixedInBounds }
{}

/// Checking keeps the rungs, their forks and legs, each mnemonic, and each number of operands.
pub fn checking_keeps_outline()
    ensures { KeepsOutline }
{}

/// Every operand of checked rungs lies in the image for all subscripts in range.
pub fn checked_is_in_bounds()
    ensures { CheckedInBounds }
{}
