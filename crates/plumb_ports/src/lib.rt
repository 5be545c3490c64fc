//! The ports of the plumber: the messages that they keep, their openings, and the reads that wait.
#![tactic(auto)]

mod fault;
mod kept;
mod laws;
mod limits;
mod names;
mod opening_queue;
mod opening_table;
mod port_map;
mod port_table;
mod ports;
mod undo;

pub use fault::PortFault;
pub use laws::{
    cancelled_is_gone, gets_each_message, keeps_at_most_64, kept_once, leaves_others,
    loses_nothing, only_ask_waits, openings_are_numbered,
};
pub use limits::MAX_PORTS;
pub use names::is_port_name;
pub use ports::Ports;
