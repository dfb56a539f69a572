//! Places: those of bytes in a slice, and those of a capture's bytes.

ghost use Rattle.std.specs.Prelude.{◌≡◌, ◌+◌, ◌-◌, ◌<◌, ◌≤◌, [], drop, length, take};

/// So many bytes from an index on; none where not all of them are there.
pub fn bytes_in(bytes: &[u8], from: usize, len: usize) -> &[u8]
    ensures inside { from + len ≤ length bytes.now → result.now ≡ take len (drop from bytes.now) }
    ensures outside { length bytes.now < from + len → result.now ≡ [] }
{
    bytes.get(from..from.saturating_add(len)).unwrap_or(&[])
}

/// The place so far before this one; the first place, which is 1, where there is none.
pub fn place_before(place: u64, far: u64) -> u64
    ensures before { 1 ≤ place - far → result ≡ place - far }
    ensures first { place - far ≤ 1 → result ≡ 1 }
{
    place.saturating_sub(far).max(1)
}
