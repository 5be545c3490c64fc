//! The message that begins a talk.

ghost use Rattle.std.specs.Prelude.{◌≡◌, [], IfOk};
ghost use Rattle.ninep_types.specs.Limits.{version_name};
ghost use Rattle.ninep_client.specs.Asking.{MaySend};

use am_text::{Items, NoMemory};
use ninep_types::{TBody, VERSION_NAME};
use std::alloc::Global;

/// The message that asks for 9P2000, with messages of at most so many bytes (version(5)). It may be
/// sent while no tag is asked.
pub fn version_message(alloc: Global, msize: u32) -> Result<TBody, NoMemory>
    ensures message { IfOk result (λ body. body ≡ TBody.Version msize version_name) }
    ensures may { IfOk result (λ body. MaySend [] body) }
{
    let version = Items::copied(alloc, VERSION_NAME)?;
    Ok(TBody::Version { msize, version })
}
