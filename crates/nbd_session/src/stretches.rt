//! How the bytes of the two sides alternated.

ghost use Rattle.std.specs.Prelude.{◌≡◌, ◌+◌, ◌-◌, ◌<◌, ◌^◌, length, slice_get, vec_capacity, vec_len};
ghost use Rattle.nbd_session.specs.{Views.stretches_of, Pushed.stretch_bytes, internal.Logging.{is_of, stretches_with}};

use nbd_wire::Side;

/// Successive bytes of one side: whose they are, and how many.
#[derive(Clone, Copy, Drop)]
pub struct Stretch {
    pub from: Side,
    pub length: u64,
}

/// Notes that so many bytes of a side come next, where there is room.
pub(crate) fn note(stretches: &mut Vec<Stretch>, side: Side, count: u64)
    requires room { vec_len stretches.old < vec_capacity stretches.old }
    requires fits { stretch_bytes side (stretches_of stretches.old.items) + count < 2 ^ 64 }
    ensures { stretches_of stretches.new.items ≡ stretches_with (stretches_of stretches.old.items) side count }
{
    if !is_last(stretches, side) {
        let _ = stretches.push(Stretch {
            from: side,
            length: count,
        });
        return;
    }
    if let Some(last) = stretches.last_mut() {
        last.length += count;
    }
}

/// Whether the last bytes are of this side.
fn is_last(stretches: &[Stretch], side: Side) -> bool
    ensures { result ≡ is_of side (slice_get stretches.now (length stretches.now - 1)) }
{
    match stretches.last() {
        Some(last) => side == last.from,
        None => false,
    }
}
