//! What sides are given beside their seats.

use crate::bells::Bells;

/// A connection that is served: the journal that all sides share, their bells, and the connection's number.
#[derive(Drop)]
pub struct Station<'a, C> {
    pub desk: &'a C,
    pub bells: &'a Bells,
    pub conn: u32,
}

/// A script that is done beside connections: the journal that all sides share, their bells, its lines, and how many
/// clients there are.
#[derive(Drop)]
pub struct Script<'a, C> {
    pub desk: &'a C,
    pub bells: &'a Bells,
    pub lines: &'a [u8],
    pub clients: u32,
}
