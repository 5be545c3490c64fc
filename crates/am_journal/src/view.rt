//! What a report tells of the editor.

use crate::ending::Ending;
use crate::event::Format;
use am_text::{Bytes, Items, JobLives, Jobs, Range, Runes};
use win_events::Life;

/// A connection that was dialled, why it ended, if it did, and its user: the uname of its last Tattach that was answered
/// by Rattach, empty where there is none.
#[derive(Drop)]
pub struct ConnView {
    pub conn: u32,
    pub ending: Option<Ending>,
    pub user: Bytes,
}

/// Connections, by rising number.
pub type ConnViews = Items<ConnView>;

/// A live window: whether it is modified, dot in its body, its name and its body.
#[derive(Drop)]
pub struct WindowView {
    pub id: u32,
    pub modified: bool,
    pub dot: Range,
    pub name: Runes,
    pub body: Runes,
}

/// Windows, by rising number.
pub type WindowViews = Items<WindowView>;

/// An item: its window, its number there, what became of it, and its spelling.
#[derive(Drop)]
pub struct ItemView {
    pub window: u32,
    pub number: u64,
    pub life: Life,
    pub spelled: Bytes,
}

/// Items, by window and number.
pub type ItemViews = Items<ItemView>;

/// The editor after so many entries of its journal, which has a format. Its requests are numbered from 1, and each has
/// a life by its number: one that has none in the list waits.
#[derive(Drop)]
pub struct View {
    pub format: Format,
    pub entries: u64,
    pub conns: ConnViews,
    pub windows: WindowViews,
    pub items: ItemViews,
    pub jobs: Jobs,
    pub lives: JobLives,
}
