//! Fields of payloads for which nbd_wire has no reader.

use nbd_wire::bytes_in;

/// Where the message of an error chunk begins, and where its length stands, in bytes.
const MESSAGE: usize = 6;

const MESSAGE_LENGTH: usize = 4;

/// The number that so many bytes from an index on are; of bytes that are not there all, 0.
pub fn number_in(bytes: &[u8], from: usize, length: usize) -> u64 {
    let mut number = 0u64;
    for byte in bytes_in(bytes, from, length) {
        number = number.wrapping_mul(256).wrapping_add(u64::from(*byte));
    }
    number
}

/// The bytes from an index on; none where there are not so many.
pub fn bytes_behind(bytes: &[u8], from: usize) -> &[u8] {
    bytes.get(from..).unwrap_or(&[])
}

/// The message in the payload of an error chunk.
pub fn message_of(payload: &[u8]) -> &[u8] {
    let length = number_in(payload, MESSAGE_LENGTH, 2);
    bytes_in(payload, MESSAGE, length as usize)
}
