//! What a fid holds: a text that was written and isn't whole yet.

ghost use Rattle.std.specs.Prelude.{◌≡◌, ◌≤◌, ◌++◌, ◌==◌, ℕ, List, [], true, drop, length, IfOk};
ghost use Rattle.plumb_msg.specs.Reading.{read_of};
ghost use Rattle.plumb_msg.specs.declared.message.PlumbRead.TheVariants.{More};
ghost use Rattle.rule_syntax.specs.Cutting as cutting;
ghost use Rattle.fid_table.specs.Held.{IsReached};

use am_text::{Bytes, Items, NoMemory};
use plumb_msg::Begun;
use rule_syntax::Scan;
use std::alloc::Global;
use std::marker::Model;
use std::mem;

/// How far a text was read, so that what is written behind it can be read alone.
#[derive(Drop)]
pub enum Reached {
    /// Not at all.
    Nothing,
    /// As rules.
    Rules(Scan),
    /// As a plumb message that is begun.
    Message(Begun),
}

/// A text that was written and isn't whole yet. It keeps how far it was read.
pub struct Held {
    bytes: Bytes,
    reached: Reached,
}

// By hand, so that a crate that drops texts goes by this drop, and has not to prove those of all that is in them.
impl Drop for Held {
    fn drop(self) {
        let Held {
            bytes: _,
            reached: _,
        } = self;
    }
}

impl Model for Held {
    ghost use Rattle.std.specs.Prelude.{List, ℕ};

    ghost Value = { List ℕ };

    ghost use Rattle.fid_table.specs.Held.{IsReached};

    ghost view = { λ h. h.bytes };

    ghost invariant = { λ h. IsReached h.reached h.bytes };
}

// The same once more, but for what would be long to copy: of that nothing is known then.
#[tactic(auto, using(crate::proofs::HeldLemmas::reached))]
fn copied(reached: &Reached) -> Reached
    ensures { (text : List ℕ) → IsReached reached.now text → IsReached result text }
{
    match reached {
        Reached::Nothing => Reached::Nothing,
        Reached::Rules(scan) => Reached::Rules(*scan),
        Reached::Message(begun) => Reached::Message(begun.copied()),
    }
}

// How far the text was scanned as rules.
#[tactic(auto, using(rule_syntax::proofs::Scans::scans))]
fn scan_of(reached: &Reached, text: &[u8]) -> Scan
    requires { IsReached reached.now text.now }
    ensures { cutting.IsScanOf result text.now }
{
    match reached {
        Reached::Rules(scan) => *scan,
        _ => Scan::new(),
    }
}

impl Held {
    /// No text. It takes no memory.
    pub fn new(alloc: Global) -> Held
        ensures { result ≡ [] }
    {
        Held {
            bytes: Items::new(alloc),
            reached: Reached::Nothing,
        }
    }

    /// A text with these bytes.
    pub fn of(alloc: Global, bytes: &[u8]) -> Result<Held, NoMemory>
        ensures { IfOk result (λ held. held ≡ bytes.now) }
    {
        Ok(Held {
            bytes: Items::copied(alloc, bytes)?,
            reached: Reached::Nothing,
        })
    }

    /// A text that is equal.
    pub fn copy(&self, alloc: Global) -> Result<Held, NoMemory>
        ensures { IfOk result (λ held. held ≡ self.now) }
    {
        Ok(Held {
            bytes: Items::copied(alloc, self.bytes.as_slice())?,
            reached: copied(&self.reached),
        })
    }

    /// The text with these bytes behind it, as a text of its own.
    #[tactic(auto, using(crate::proofs::HeldLemmas::reached))]
    pub fn with(&self, alloc: Global, bytes: &[u8]) -> Result<Held, NoMemory>
        ensures { IfOk result (λ held. held ≡ self.now ++ bytes.now) }
    {
        let mut text = Vec::with_capacity(alloc, self.bytes.len().saturating_add(bytes.len()))?;
        text.extend_from_slice(self.bytes.as_slice())?;
        text.extend_from_slice(bytes)?;
        Ok(Held {
            bytes: Items::from_vec(text),
            reached: copied(&self.reached),
        })
    }

    /// The bytes of the text.
    pub fn as_slice(&self) -> &[u8]
        ensures { result.now ≡ self.now }
    {
        self.bytes.as_slice()
    }

    /// Whether it has none.
    pub fn is_empty(&self) -> bool
        ensures { result ≡ (length self.now == 0) }
    {
        self.bytes.is_empty()
    }

    /// How many bytes whole sets of rules take, where it is a text of rules. What was read before isn't read again.
    pub fn sets_end(&mut self) -> usize
        ensures same { self.new ≡ self.old }
        ensures exact { result ≡ cutting.sets_end self.old }
        ensures inside { result ≤ length self.old }
    {
        let scan = scan_of(&self.reached, self.bytes.as_slice()).go_on(self.bytes.as_slice());
        self.reached = Reached::Rules(scan);
        scan.end
    }

    /// What stands behind so many bytes.
    pub fn behind(self, alloc: Global, bytes: usize) -> Result<Held, NoMemory>
        requires { bytes ≤ length self }
        ensures { IfOk result (λ held. held ≡ drop bytes self) }
    {
        if bytes == 0 {
            return Ok(self);
        }
        Held::of(alloc, self.bytes.as_slice().split_at(bytes).1)
    }

    /// It is a plumb message that was read and is begun.
    pub fn begin(&mut self)
        requires { read_of self.old ≡ More }
        ensures { self.new ≡ self.old }
    {
        self.reached = Reached::Message(Begun::of(self.bytes.as_slice()));
    }

    /// Whether it shows itself to be a plumb message that is begun, by what was written since it was one. It may be one
    /// also where the answer is no.
    pub fn goes_on(&mut self, alloc: Global) -> Result<bool, NoMemory>
        ensures same { self.new ≡ self.old }
        ensures more { IfOk result (λ goes. goes ≡ true → read_of self.old ≡ More) }
    {
        let reached = mem::replace(&mut self.reached, Reached::Nothing);
        let Reached::Message(begun) = reached else {
            return Ok(false);
        };
        let Some(begun) = begun.go_on(alloc, self.bytes.as_slice())? else {
            return Ok(false);
        };
        self.reached = Reached::Message(begun);
        Ok(true)
    }
}
