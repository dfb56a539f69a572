//! A law over what a session holds: the contract of a function that does nothing.
ghost use Rattle.nbd_session.specs.Pushed.{PushedHoldsEachSide};

/// From what a session holds one gets back each side's bytes: the encodings of its messages, and the bytes after them.
pub fn pushed_holds_each_side()
    ensures { PushedHoldsEachSide }
{}
