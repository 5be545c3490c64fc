//! The events of the editor, the lines of a transcript, and the report.
#![tactic(auto)]

mod actions;
mod causes;
mod ending;
mod event;
mod fields;
mod headings;
mod hexadecimal;
mod laws;
mod limits;
mod lines;
mod parts;
mod paths;
mod replies;
mod reporting;
mod spots;
mod view;

pub use am_text::{Bytes, Items, Job, JobKind, JobLife, JobLives, Jobs, NoMemory, Range, Runes};
pub use ending::{Bad, Ending};
pub use event::{Event, Events, Format, Journal, Refused, Side, Spot, Why};
pub use headings::{heading, split_heading};
pub use hexadecimal::{bytes_of_hex, put_hex};
pub use laws::{journals_are_read_again, lines_are_read_again, reports_are_their_parts};
pub use limits::CONNECTIONS;
pub use lines::{read_line, write_line};
pub use ninep_types::{TBody, TMsg, WireError, WireFault};
pub use parts::{Section, part_count, report, report_part, sections};
pub use replies::{refused_line, reply_line, word};
pub use view::{ConnView, ConnViews, ItemView, ItemViews, View, WindowView, WindowViews};
pub use win_events::Life;
