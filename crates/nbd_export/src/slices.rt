//! Slices of bytes: a part of one, and two of them compared.

ghost use Rattle.std.specs.Prelude.{◌≡◌, ◌+◌, ◌<◌, ◌≤◌, ℕ, length, slice_index};
ghost use Rattle.nbd_export.specs.{Ranges.IsLeast, internal.{DifferAt, IsNonzeroAt}};

static ZEROES: [u8; 1024] = [0; 1024];

/// As many bytes of a slice as these, from an index on.
pub fn part(bytes: &[u8], first: usize, len: usize) -> &[u8]
    requires { first + len ≤ length bytes.now }
    ensures len { length result.now ≡ len }
    ensures bytes { (i : ℕ) → i < len → slice_index result.now i ≡ slice_index bytes.now (first + i) }
{
    &bytes[first..first + len]
}

/// Lets the bytes from an index on be those of `part`.
pub fn overwrite(bytes: &mut [u8], first: usize, part: &[u8])
    requires { first + length part.now ≤ length bytes.old }
    ensures before { (i : ℕ) → i < first → slice_index bytes.new i ≡ slice_index bytes.old i }
    ensures inside { (i : ℕ) → i < length part.now → slice_index bytes.new (first + i) ≡ slice_index part.now i }
    ensures behind { (i : ℕ) → first + length part.now ≤ i → slice_index bytes.new i ≡ slice_index bytes.old i }
{
    bytes[first..first + part.len()].copy_from_slice(part);
}

/// The least index at which two slices of one length differ; None where they are the same.
pub fn first_unequal(a: &[u8], b: &[u8]) -> Option<usize>
    requires { length a.now ≡ length b.now }
    ensures { IsLeast (DifferAt a.now b.now) result }
{
    if a == b {
        return None;
    }
    for i in 0..a.len() {
        if a[i] != b[i] {
            return Some(i);
        }
    }
    None
}

/// The least index of a byte that is not 0; None where there is none.
pub fn first_nonzero(bytes: &[u8]) -> Option<usize>
    ensures { IsLeast (IsNonzeroAt bytes.now) result }
{
    let mut done = 0;
    while done < bytes.len() {
        let len = ZEROES.len().min(bytes.len() - done);
        if let Some(i) = first_unequal(part(bytes, done, len), zero_bytes(len)) {
            return Some(done + i);
        }
        done += len;
    }
    None
}

/// As many zeroes as these.
pub fn zero_bytes(len: usize) -> &'static [u8]
    requires { len ≤ 1024 }
    ensures len { length result.now ≡ len }
    ensures zeroes { (i : ℕ) → slice_index result.now i ≡ 0 }
{
    part(&ZEROES, 0, len)
}
