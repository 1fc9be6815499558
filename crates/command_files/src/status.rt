//! The statuses that the program ends with.

/// A drive is on time, and the gap between its energy and the bound is within the tolerance.
pub const GAP_MET: u8 = 0;

/// The certificate holds.
pub const CERTIFIED: u8 = 0;

/// A session was read to its end.
pub const SESSION_READ: u8 = 0;

/// The drive of a report is kept and on time, and is shown.
pub const SHOWN: u8 = 0;

/// A drive is on time, and the gap is wider.
pub const GAP_OPEN: u8 = 1;

/// The words ask for nothing.
pub const USAGE: u8 = 2;

/// A file is too long or is refused, or the rules that the files give together are.
pub const REFUSED: u8 = 3;

/// There is no drive.
pub const NO_DRIVE: u8 = 4;

/// There is a drive, and none is on time.
pub const LATE: u8 = 5;

/// A file can't be read.
pub const READ_FAULT: u8 = 6;

/// The text, or a part of it, can't be written.
pub const WRITE_FAULT: u8 = 7;

/// There is no memory.
pub const NO_MEMORY: u8 = 8;

/// The certificate is refused.
pub const CERTIFICATE_REFUSED: u8 = 9;
