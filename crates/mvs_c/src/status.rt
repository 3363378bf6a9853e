//! What calls return: the numbers of `mvs_status` in mvs.h.

/// The call was served.
pub const OK: u32 = 0;
/// The line has a fault.
pub const SCRIPT_FAULT: u32 = 12;
/// Memory is exhausted.
pub const NO_MEMORY: u32 = 16;
/// The handle holds no session.
pub const NO_SESSION: u32 = 20;
/// The job has ended, or there is no number for another line.
pub const OVER: u32 = 24;
/// A buffer is too small.
pub const TOO_SMALL: u32 = 32;
/// A byte cannot be accessed.
pub const NO_ACCESS: u32 = 36;
/// There is no further one.
pub const NO_MORE: u32 = 40;
/// A script is too long.
pub const TOO_LONG: u32 = 44;
/// No task of this name is active.
pub const NO_TASK: u32 = 48;
/// A field of a request does not fit.
pub const NO_REQUEST: u32 = 52;
/// No step runs.
pub const NO_STEP: u32 = 56;
/// A number is that of no place.
pub const NO_PLACE: u32 = 60;
/// The size field of a struct is not its size.
pub const WRONG_SIZE: u32 = 64;
/// The session does not have the bytes of storage.
pub const NO_BYTES: u32 = 68;
