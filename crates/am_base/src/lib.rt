//! The outside: where bytes come from and go to, and objects in memory in its place.
#![tactic(auto)]

mod calls;
mod link;
mod mem_gate;
mod mem_host;
mod mem_link;
mod mem_sink;
mod mem_source;
mod never_fails;
mod reading;
mod sink;
mod socket_name;
mod source;
mod streams;
mod unix;

pub use link::{Gate, Host, Link};
pub use mem_gate::MemGate;
pub use mem_host::{MemGates, MemHost};
pub use mem_link::MemLink;
pub use mem_sink::MemSink;
pub use mem_source::MemSource;
pub use never_fails::NeverFails;
pub use reading::{INPUT_LIMIT, PIECE_LIMIT, ReadStop, read_to_end};
pub use sink::{Sink, write_all};
pub use source::{Failed, Source};
pub use streams::{InputSource, OutputSink};
pub use unix::{UnixGate, UnixHost, UnixLink, UnixSink, UnixSource};
