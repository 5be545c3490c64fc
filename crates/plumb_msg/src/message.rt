//! Plumb messages, and what reading one answers.

use am_text::{Bytes, Items};

/// An attribute of a plumb message.
#[derive(Drop)]
pub struct Attr {
    pub name: Bytes,
    pub value: Bytes,
}

/// A list of attributes.
pub type Attrs = Items<Attr>;

/// A plumb message. Its texts are UTF-8, each in one line.
#[derive(Drop)]
pub struct PlumbMsg {
    /// The program that sends it.
    pub src: Bytes,
    /// The port that it is for, or nothing.
    pub dst: Bytes,
    /// The directory that names in it are relative to.
    pub wdir: Bytes,
    /// The type of the data, as `text`.
    pub sort: Bytes,
    pub attrs: Attrs,
    /// The data.
    pub body: Bytes,
}

/// What stands at the front of bytes.
#[derive(Drop)]
pub enum PlumbRead {
    /// A message, and how many bytes it takes.
    Whole(PlumbMsg, usize),
    /// The bytes are a proper front of a message.
    More,
    /// No message begins the bytes, and they begin none.
    Bad,
}
