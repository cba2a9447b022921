//! Laws of prefixes, numbers, decimals and cut texts, for proofs: each function does nothing, and its
//! contract is the law.
ghost use Rattle.scala_lines.specs.Cuts.{CutLeavesFew};
ghost use Rattle.scala_lines.specs.Laws.{ArePrefixes, AreNumbers, DecimalsAreLow};

/// What stands at the start of a text, and what stands behind it.
pub fn prefixes()
    ensures { ArePrefixes }
{}

/// The number behind the blanks of a line.
pub fn numbers()
    ensures { AreNumbers }
{}

/// The digits behind a period.
pub fn decimals()
    ensures { DecimalsAreLow }
{}

/// The first lines of a text.
pub fn cuts()
    ensures { CutLeavesFew }
{}
