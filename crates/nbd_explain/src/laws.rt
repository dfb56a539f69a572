//! What holds of what commands write: each law is the contract of a function that does nothing.
ghost use Rattle.nbd_explain.specs.{Compared.ImagesCompareAsReads, Shown.OneOutput};

/// In a profile `show` has one output at most: the lines of the same messages, and the same last line.
pub fn one_output()
    ensures { OneOutput }
{}

/// An image of the export's size agrees with what is left on it exactly where a READ of the whole export that got its
/// bytes, served behind everything else, serves no wrong byte.
pub fn images_compare_as_reads()
    ensures { ImagesCompareAsReads }
{}
