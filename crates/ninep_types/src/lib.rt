//! The messages of 9P2000 as types, after section 5 of the Plan 9 manual, and what their bytes are.
//!
//! `specs/Fields` and `specs/Spelling` say the one spelling of each message, `specs/Reading` how bytes are
//! read as one. `ninep_wire` reads and writes them. `docs/formats/messages.md` has the table of messages.
#![tactic(auto)]

mod fault;
mod kinds;
mod limits;
mod message;

pub use am_text::{Bytes, Items, Names, NoMemory};
pub use fault::{WireError, WireFault};
pub use kinds::{
    RATTACH, RAUTH, RCLUNK, RCREATE, RERROR, RFLUSH, ROPEN, RREAD, RREMOVE, RSTAT, RVERSION, RWALK,
    RWRITE, RWSTAT, TATTACH, TAUTH, TCLUNK, TCREATE, TFLUSH, TOPEN, TREAD, TREMOVE, TSTAT,
    TVERSION, TWALK, TWRITE, TWSTAT,
};
pub use limits::{
    HEAD_SIZE, MAX_MSIZE, MAX_NAMES, MIN_MSIZE, NO_FID, NO_TAG, RREAD_HEAD, VERSION_NAME,
};
pub use message::{Qid, Qids, RBody, RMsg, TBody, TMsg};
