//! What stands at the front of a stream.

ghost use Rattle.std.specs.Prelude.{◌≡◌, ◌<◌, ◌≤◌, ◌++◌, length};
ghost use Rattle.ninep_cut.specs.Cuts.{size_of, is_lawful, cut_of, first_of, behind_first, IsMessage};

use ninep_types::{HEAD_SIZE, MAX_MSIZE};

/// What `Cutter::next` found at the front of the bytes.
#[derive(Clone, Copy, Debug, PartialEq, Eq)]
pub enum Cut {
    /// A whole message, which was given.
    Whole,
    /// Less than a message.
    More,
    /// A size that no message has. Nothing more can be cut.
    Broken(u32),
}

// The size that the first four bytes tell.
#[tactic(auto, unfolding(crate::specs::Cuts::size_of))]
fn size_of(bytes: &[u8]) -> u32
    requires { 4 ≤ length bytes.now }
    ensures { result ≡ size_of bytes.now }
{
    u32::from_le_bytes([bytes[0], bytes[1], bytes[2], bytes[3]])
}

// Whether a message may have this size.
fn is_lawful(size: u32) -> bool
    ensures { result ≡ is_lawful size }
{
    (HEAD_SIZE..=MAX_MSIZE).contains(&size)
}

/// What stands at the front of the bytes. It takes no memory.
#[tactic(auto, unfolding(crate::specs::Cuts::cut_of))]
pub fn cut_of(bytes: &[u8]) -> Cut
    ensures { result ≡ cut_of bytes.now }
{
    if bytes.len() < 4 {
        return Cut::More;
    }
    let size = size_of(bytes);
    if !is_lawful(size) {
        return Cut::Broken(size);
    }
    if bytes.len() < size as usize {
        return Cut::More;
    }
    Cut::Whole
}

/// The message that stands whole at the front. It takes no memory.
#[tactic(auto, using(crate::proofs::Fronts::fronts))]
pub fn first_of(bytes: &[u8]) -> &[u8]
    requires { cut_of bytes.now ≡ Cut.Whole }
    ensures message { result.now ≡ first_of bytes.now }
    ensures len { length result.now ≡ size_of bytes.now }
    ensures within { length result.now ≤ length bytes.now }
    ensures whole { IsMessage result.now }
    ensures front { bytes.now ≡ result.now ++ behind_first bytes.now }
{
    let (message, _) = bytes.split_at(size_of(bytes) as usize);
    message
}
