//! Why a case has no value.

use addr_syntax::SynFault;
use am_text::NoMemory;
use std::alloc::AllocError;

/// Why a case has no value, which is answered in its place.
#[derive(Drop)]
pub enum Fault {
    /// The line is no case, answered `?`.
    NoCase,
    /// A text goes wrong at this place or in this line, answered `bad PLACE`.
    Bad(usize),
    /// The call tells this cause.
    Says(&'static str),
    /// Want of memory, with which the program ends.
    NoMemory,
}

impl From<NoMemory> for Fault {
    fn from(_e: NoMemory) -> Fault {
        Fault::NoMemory
    }
}

impl From<AllocError> for Fault {
    fn from(_e: AllocError) -> Fault {
        Fault::NoMemory
    }
}

impl From<SynFault> for Fault {
    fn from(fault: SynFault) -> Fault {
        match fault {
            SynFault::Bad(place) => Fault::Bad(place),
            SynFault::Nodes => Fault::Says("nodes"),
            SynFault::Deep => Fault::Says("deep"),
            SynFault::NoMemory => Fault::NoMemory,
        }
    }
}
