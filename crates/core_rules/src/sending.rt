//! What is written to the file `send`, after plumber(4).

ghost use Rattle.std.specs.Prelude.{◌≡◌, ◌<◌, [], Some, None, IfOk, OnOk, length};
ghost use Rattle.core_scene.specs.Scenes.{scene_of, kept_of, Did};
ghost use Rattle.core_rules.specs.Sending.{send_outcome};
ghost use Rattle.plumb_msg.specs.Reading.{read_of};
ghost use Rattle.plumb_msg.specs.declared.message.PlumbRead.TheVariants.{More};

use crate::send_refusal::SendRefusal;
use am_text::NoMemory;
use core_plumb::plumb;
use core_scene::{Entry, Scene};
use fid_table::Held;
use plumb_msg::{PlumbRead, read_msg};
use std::alloc::Global;

/// What became of a write to `send`.
#[derive(Drop)]
pub struct Sent {
    /// Why it is refused, if it is.
    pub refusal: Option<SendRefusal>,
    /// What the fid holds then: a message that is begun.
    pub held: Held,
}

/// What became of the messages of a text, and the bytes behind them that are held.
#[derive(Clone, Copy)]
pub(crate) struct Left<'a> {
    refusal: Option<SendRefusal>,
    held: &'a [u8],
}

fn refused<'a>(refusal: SendRefusal) -> Left<'a>
    ensures refusal { result.refusal ≡ Some refusal }
    ensures held { result.held.now ≡ [] }
{
    Left {
        refusal: Some(refusal),
        held: &[],
    }
}

fn holding(held: &[u8]) -> Left<'_>
    ensures refusal { result.refusal ≡ None }
    ensures held { result.held.now ≡ held.now }
{
    Left {
        refusal: None,
        held,
    }
}

// Plumbs the whole messages of a text.
fn send_read<'a>(
    alloc: Global,
    scene: &mut Scene,
    entry: Entry,
    text: &'a [u8],
) -> Result<Left<'a>, NoMemory>
    ensures refusal { IfOk result (λ left. left.refusal ≡ (send_outcome entry text.now (scene_of scene.old)).refusal) }
    ensures held { IfOk result (λ left. left.held.now ≡ (send_outcome entry text.now (scene_of scene.old)).held) }
    ensures begun { IfOk result (λ left. 0 < length left.held.now → read_of left.held.now ≡ More) }
    ensures ok { OnOk result (Did entry (scene_of scene.old) (scene_of scene.new)
        (send_outcome entry text.now (scene_of scene.old)).deeds) }
    ensures kept { kept_of scene.new ≡ kept_of scene.old }
{
    let mut rest = text;
    while !rest.is_empty() {
        match read_msg(alloc, rest)? {
            PlumbRead::Whole(msg, used) => match plumb(alloc, scene, entry, &msg)? {
                None => rest = rest.split_at(used).1,
                Some(refusal) => return Ok(refused(SendRefusal::Plumb(refusal))),
            },
            PlumbRead::More => return Ok(holding(rest)),
            PlumbRead::Bad => return Ok(refused(SendRefusal::BadPlumbMessage)),
        }
    }
    Ok(holding(rest))
}

// The bytes that are held behind whole messages: a message that is begun, or none.
fn held_of(alloc: Global, bytes: &[u8]) -> Result<Held, NoMemory>
    requires { 0 < length bytes.now → read_of bytes.now ≡ More }
    ensures { IfOk result (λ held. held ≡ bytes.now) }
{
    let mut held = Held::of(alloc, bytes)?;
    if !held.is_empty() {
        held.begin();
    }
    Ok(held)
}

/// Plumbs the whole messages of a text: what a fid of `send` holds, with the bytes that are now written to it. Each is
/// plumbed over the scene that those before it leave, up to the first that is refused; those before it stay plumbed.
///
/// It is refused where a message is, and as `BadPlumbMessage` where what stands behind the messages begins none.
/// Nothing is held then. Of a message that goes on no byte is read twice.
pub fn send(alloc: Global, scene: &mut Scene, entry: Entry, text: Held) -> Result<Sent, NoMemory>
    ensures refusal { IfOk result (λ sent. sent.refusal ≡ (send_outcome entry text (scene_of scene.old)).refusal) }
    ensures held { IfOk result (λ sent. sent.held ≡ (send_outcome entry text (scene_of scene.old)).held) }
    ensures ok { OnOk result (Did entry (scene_of scene.old) (scene_of scene.new)
        (send_outcome entry text (scene_of scene.old)).deeds) }
    ensures kept { kept_of scene.new ≡ kept_of scene.old }
{
    let mut text = text;
    if text.goes_on(alloc)? {
        return Ok(Sent {
            refusal: None,
            held: text,
        });
    }
    let Left { refusal, held } = send_read(alloc, scene, entry, text.as_slice())?;
    Ok(Sent {
        refusal,
        held: held_of(alloc, held)?,
    })
}
