//! Copies of messages.

ghost use Rattle.std.specs.Prelude.{◌≡◌, IfOk};

use am_text::{Bytes, NoMemory};
use plumb_msg::{Attr, Attrs, PlumbMsg};
use std::alloc::Global;

/// The same attribute.
pub fn copied_attr(alloc: Global, attr: &Attr) -> Result<Attr, NoMemory>
    ensures { IfOk result (λ new. new ≡ attr.now) }
{
    Ok(Attr {
        name: Bytes::copied(alloc, attr.name.as_slice())?,
        value: Bytes::copied(alloc, attr.value.as_slice())?,
    })
}

#[tactic(auto, using(crate::proofs::Further::attributes))]
fn copied_attrs(alloc: Global, attrs: &[Attr]) -> Result<Attrs, NoMemory>
    ensures { IfOk result (λ new. new ≡ attrs.now) }
{
    let mut new = Attrs::new(alloc);
    for attr in attrs {
        new.push(copied_attr(alloc, attr)?)?;
    }
    Ok(new)
}

/// The same message.
pub fn copied_msg(alloc: Global, msg: &PlumbMsg) -> Result<PlumbMsg, NoMemory>
    ensures { IfOk result (λ new. new ≡ msg.now) }
{
    Ok(PlumbMsg {
        src: Bytes::copied(alloc, msg.src.as_slice())?,
        dst: Bytes::copied(alloc, msg.dst.as_slice())?,
        wdir: Bytes::copied(alloc, msg.wdir.as_slice())?,
        sort: Bytes::copied(alloc, msg.sort.as_slice())?,
        attrs: copied_attrs(alloc, msg.attrs.as_slice())?,
        body: Bytes::copied(alloc, msg.body.as_slice())?,
    })
}
