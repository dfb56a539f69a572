//! What the constant of this crate is, as the contract of a function that does nothing.

ghost use Rattle.std.specs.Prelude.{◌≡◌, ◌^◌};
ghost use Rattle.nbd_files.specs.declared.input.TheConstants.{READ_LIMIT};

/// The limit of an input is 2^40 bytes, neither more nor less: `limited` of each command says that no longer one is read as
/// whole, and the readers compare with this constant.
pub fn limit_is_literal()
    ensures { READ_LIMIT ≡ 2 ^ 40 }
{}
