//! Handshake flags of the server and of the client, as masks (proto.md, "Handshake flags", "Client flags").

/// The server speaks fixed newstyle.
pub const FIXED_NEWSTYLE: u16 = 1 << 0;
/// The server leaves out the 124 zeroes after an export's size and flags where the client agrees.
pub const NO_ZEROES: u16 = 1 << 1;
/// The client speaks fixed newstyle.
pub const C_FIXED_NEWSTYLE: u32 = 1 << 0;
/// The client agrees to leave out the 124 zeroes.
pub const C_NO_ZEROES: u32 = 1 << 1;
