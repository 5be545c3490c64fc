//! The type bytes of messages.

/// Tversion.
pub const TVERSION: u8 = 100;

/// Tauth.
pub const TAUTH: u8 = 102;

/// Tattach.
pub const TATTACH: u8 = 104;

/// Tflush.
pub const TFLUSH: u8 = 108;

/// Twalk.
pub const TWALK: u8 = 110;

/// Topen.
pub const TOPEN: u8 = 112;

/// Tcreate.
pub const TCREATE: u8 = 114;

/// Tread.
pub const TREAD: u8 = 116;

/// Twrite.
pub const TWRITE: u8 = 118;

/// Tclunk.
pub const TCLUNK: u8 = 120;

/// Tremove.
pub const TREMOVE: u8 = 122;

/// Tstat.
pub const TSTAT: u8 = 124;

/// Twstat.
pub const TWSTAT: u8 = 126;

/// Rversion.
pub const RVERSION: u8 = 101;

/// Rauth.
pub const RAUTH: u8 = 103;

/// Rattach.
pub const RATTACH: u8 = 105;

/// Rerror.
pub const RERROR: u8 = 107;

/// Rflush.
pub const RFLUSH: u8 = 109;

/// Rwalk.
pub const RWALK: u8 = 111;

/// Ropen.
pub const ROPEN: u8 = 113;

/// Rcreate.
pub const RCREATE: u8 = 115;

/// Rread.
pub const RREAD: u8 = 117;

/// Rwrite.
pub const RWRITE: u8 = 119;

/// Rclunk.
pub const RCLUNK: u8 = 121;

/// Rremove.
pub const RREMOVE: u8 = 123;

/// Rstat.
pub const RSTAT: u8 = 125;

/// Rwstat.
pub const RWSTAT: u8 = 127;
