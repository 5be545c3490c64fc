//! Why a text isn't rules.

ghost use Rattle.std.specs.Prelude.{◌≡◌};
ghost use Rattle.rule_syntax.specs.declared.fault.RuleFault.TheVariants as fault;

use am_text::NoMemory;

/// Why a text isn't rules.
#[derive(Clone, Copy, Debug, PartialEq, Eq)]
pub enum RuleFault {
    /// The first line at fault, from 1: it is no rule, no definition, not blank and no comment; it repeats what its set
    /// has; or it ends a set without a `plumb` rule.
    Bad(usize),
    /// No line is at fault, and an expression has more than 2,048 nodes.
    Nodes,
    /// Want of memory.
    NoMemory,
}

impl From<NoMemory> for RuleFault {
    ghost from_gives = { λ _ e. e ≡ fault.NoMemory };

    fn from(_e: NoMemory) -> RuleFault {
        RuleFault::NoMemory
    }
}
