//! The range that the file `addr` of a window names, and what `addr`, `data` and `xdata` give and take (acme(4)).
#![tactic(auto)]

mod addr;
mod data;
mod fault;

pub use addr::{address_range, range_text};
pub use data::{Given, Taken, data_given, data_taken, replacement, xdata_given};
pub use fault::RangeFault;
pub use win_text::Body;
