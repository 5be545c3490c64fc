//! Laws of the ports that rules name. The function has the law as its contract, and does nothing.

ghost use Rattle.rule_syntax.specs.NamingLaws.{NamesArePorts};

/// Each port that rules name has a name that a port can have.
pub fn names_are_ports()
    ensures { NamesArePorts }
{}
