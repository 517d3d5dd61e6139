// The map of memory. `specs/Regions` says what each region is for.

/// Where the code begins.
pub const CODE_BASE: u32 = 0x0100_0000;
/// Where the data begin.
pub const DATA_BASE: u32 = 0x0400_0000;
/// Where the stack region begins: its reserve.
pub const STACK_BASE: u32 = 0x0800_0000;
/// Where the stack region ends: ESP at the start.
pub const STACK_TOP: u32 = 0x0810_0400;
/// The bytes of the stack region: one MiB and the reserve.
pub const STACK_LENGTH: u32 = 0x0010_0400;
/// The lowest bytes of the stack region, into which no frame reaches.
pub const RESERVE: u32 = 1024;
