//! Event files and ports in the editor: how they are opened and read, which items come, and what ends the reads that
//! wait.
#![tactic(auto)]

mod asking;
mod closing;
mod port_asking;
mod port_closing;
mod port_serving;
mod putting;
mod response;
mod serving;
mod waits;

pub use am_text::{Items, NoMemory};
pub use asking::{EventRead, open_events, read_events, reads_are_full};
pub use closing::{BackItem, cancel_read, close_events, free_fids, free_openings, write_back};
pub use core_scene::{WindowItem, WindowItems};
pub use event_book::Book;
pub use plumb_ports::Ports;
pub use port_asking::{open_port, read_port};
pub use port_closing::{cancel_port_read, free_port_fids, free_port_openings};
pub use port_serving::serve_ports;
pub use putting::{put_all, put_living};
pub use response::{
    Feed, FeedKind, Response, Responses, event_feed, joined, port_feed, watch_feed,
};
pub use serving::serve_all;
pub use waits::{clunked, deletions, end_reads, forget_cancelled};
