//! The bytes of messages to connections.

ghost use Rattle.std.specs.Prelude.{◌≡◌, ◌<◌, ◌+◌, ◌^◌, slice_get, MatchOption, OnSome, Some, None};

use am_text::Bytes;

/// The bytes of a message to a connection.
#[derive(Drop)]
pub struct Reply {
    pub conn: u32,
    pub bytes: Bytes,
}

/// The reply of that number, from 0: its connection and its bytes.
pub fn reply_at(replies: &[Reply], k: usize) -> Option<(u32, &[u8])>
    ensures exact { MatchOption result
        (slice_get replies.now k ≡ None)
        (λ shown. slice_get replies.now k ≡ Some (record { conn = shown.0; bytes = shown.1.now })) }
    ensures counted { OnSome result (k + 1 < 2 ^ 64) }
{
    let _len = replies.len();
    match replies.get(k) {
        Some(reply) => Some((reply.conn, reply.bytes.as_slice())),
        None => None,
    }
}
