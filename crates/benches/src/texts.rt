//! The texts and expressions of the benches.
use am_text::{Items, NoMemory, Runes, decode_whole};
use re_syntax::{Re, parse_re};
use std::alloc::Global;

pub fn runes(alloc: Global, text: &str) -> Result<Runes, NoMemory> {
    decode_whole(alloc, text.as_bytes())
}

/// So many runes, the same few again and again.
pub fn repeated(alloc: Global, text: &str, count: usize) -> Result<Runes, NoMemory> {
    let few = runes(alloc, text)?;
    let few = few.as_slice();
    let mut all = Items::new(alloc);
    if !few.is_empty() {
        for i in 0..count {
            all.push(few[i % few.len()])?;
        }
    }
    Ok(all)
}

/// The tree of an expression.
pub fn tree(alloc: Global, expression: &Runes) -> Result<Re, NoMemory> {
    match parse_re(alloc, expression.as_slice(), 0, None) {
        Ok((re, _)) => Ok(re),
        Err(_) => Err(NoMemory),
    }
}
