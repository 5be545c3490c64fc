//! What is served.

/// The slots that are bound: those of a path, from 0 on, one for each client.
#[derive(Drop)]
pub struct Site<'a> {
    pub path: &'a str,
    pub clients: u32,
}

/// A connection for each of the slots of a path, from 0 on, and the lines of a script beside them.
#[derive(Drop)]
pub struct Service<'a> {
    pub path: &'a str,
    pub clients: u32,
    pub script: &'a [u8],
}
