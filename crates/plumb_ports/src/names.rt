//! Names of ports.

ghost use Rattle.std.specs.Prelude.{◌≡◌};
ghost use Rattle.rule_syntax.specs.Verbs.{is_port_rune, are_port_runes, is_taken, is_port_name};

fn is_port_letter(letter: u8) -> bool
    ensures { result ≡ is_port_rune letter }
{
    letter.is_ascii_alphanumeric() || letter == b'_' || letter == b'.' || letter == b'-'
}

fn are_port_letters(name: &[u8]) -> bool
    ensures { result ≡ are_port_runes name.now }
{
    name.iter().all(|letter| is_port_letter(*letter))
}

fn is_taken(name: &[u8]) -> bool
    ensures { result ≡ is_taken name.now }
{
    name == b"send".as_slice() || name == b"rules".as_slice()
}

/// Whether a port may have this name: it is 1 to 64 of ASCII letters, digits, `_`, `.` and `-`, and
/// neither `send` nor `rules`.
#[tactic(auto, unfolding(rule_syntax::specs::Verbs::is_port_name))]
pub fn is_port_name(name: &[u8]) -> bool
    ensures { result ≡ is_port_name name.now }
{
    if 1 <= name.len() && name.len() <= 64 {
        are_port_letters(name) && !is_taken(name)
    } else {
        false
    }
}
