//! What holds of the line that `check` writes, as the contract of a function that does nothing.
ghost use Rattle.nbd_tool.specs.Runs.{OneLine};

/// `check` has one line to write at most: in a profile what it reads from its three inputs has one verdict.
pub fn one_line()
    ensures { OneLine }
{}
