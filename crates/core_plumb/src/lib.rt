//! A plumb message is routed by the plumber's rules and delivered: to a port, to the editor, or to a command that is
//! started; and Look, as it asks the plumber first (plumb(6), plumber(4), acme(1)).
#![tactic(auto)]

mod delivering;
mod editing;
mod looking;
mod plumbing;
mod refusal;
mod routing;
mod starting;

pub use looking::{is_plumbed, plumb_look};
pub use plumbing::plumb;
pub use refusal::PlumbRefusal;
