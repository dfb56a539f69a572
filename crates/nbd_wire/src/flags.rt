//! Flags, named by their masks.

ghost use Rattle.std.specs.Prelude.{◌≡◌};
ghost use Rattle.nbd_wire.specs.protocol.Flags.{has, has_only};

/// Whether a flag of a field of 16 bits is set (proto.md, "Flag fields").
pub fn has(flags: u16, mask: u16) -> bool
    ensures { result ≡ has flags mask }
{
    has_wide(u32::from(flags), u32::from(mask))
}

/// Whether a flag of a field of 32 bits is set (proto.md, "Flag fields").
pub fn has_wide(flags: u32, mask: u32) -> bool
    ensures { result ≡ has flags mask }
{
    has_long(u64::from(flags), u64::from(mask))
}

/// Whether a flag of a field of 64 bits is set (proto.md, "Flag fields").
pub fn has_long(flags: u64, mask: u64) -> bool
    ensures { result ≡ has flags mask }
{
    flags & mask != 0
}

/// Whether no flag is set but those of the mask (proto.md, "Flag fields").
pub fn has_only(flags: u32, mask: u32) -> bool
    ensures { result ≡ has_only flags mask }
{
    flags & mask == flags
}
