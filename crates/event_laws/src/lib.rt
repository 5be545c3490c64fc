//! What holds of the items of event files, and of what openings of ports get, over every journal of the editor.
#![tactic(auto)]

mod laws;
mod port_laws;

pub use laws::events_are_lawful;
pub use port_laws::ports_are_lawful;
