//! The lesser of two numbers that may be absent.

ghost use Rattle.std.specs.Prelude.{◌≡◌};
ghost use Rattle.nbd_judge.specs.internal.{is_above};
ghost use Rattle.nbd_wire.specs.Prelude.{lesser_of};

/// The lesser of two numbers; if only one is there, that one.
pub fn lesser(a: Option<u64>, b: Option<u64>) -> Option<u64>
    ensures { result ≡ lesser_of a b }
{
    match (a, b) {
        (Some(x), Some(y)) => Some(if x <= y { x } else { y }),
        (Some(x), None) => Some(x),
        (None, b) => b,
    }
}

/// Whether `k` is above a number; false if there is none.
pub fn exceeds(k: u64, least: Option<u64>) -> bool
    ensures { result ≡ is_above k least }
{
    match least {
        Some(x) => x < k,
        None => false,
    }
}
