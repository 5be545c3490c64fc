//! Words of a line of rules, as bytes.

ghost use Rattle.std.specs.Prelude.{◌≡◌, option_copied, false};
ghost use Rattle.std.specs.Int.{is_in_range};
ghost use Rattle.rule_syntax.specs.Words.{is_digit, is_name_rune, is_gap, name_part, after_name, after_blanks};
ghost use Rattle.rule_syntax.specs.Words.{is_blank_line, is_comment, begins_with_digit};
ghost use Rattle.rule_syntax.specs.Parsing.{after_equals, value_text};
ghost use Rattle.rule_syntax.specs.Cutting.{has_newline, is_open_behind, is_open, is_whole, is_definition, is_rule};

fn is_within(low: u8, high: u8, b: u8) -> bool
    ensures { result ≡ is_in_range low high b }
{
    low <= b && b <= high
}

fn is_digit(b: u8) -> bool
    ensures { result ≡ is_digit b }
{
    is_within(b'0', b'9', b)
}

// A letter, a digit or `_`.
fn is_name_byte(b: u8) -> bool
    ensures { result ≡ is_name_rune b }
{
    is_digit(b) || is_within(b'A', b'Z', b) || is_within(b'a', b'z', b) || b == b'_'
}

fn is_gap(b: u8) -> bool
    ensures { result ≡ is_gap b }
{
    b == b' ' || b == b'\t'
}

/// Whether a newline stands in these bytes.
pub(crate) fn has_newline(bytes: &[u8]) -> bool
    ensures { result ≡ has_newline bytes.now }
{
    bytes.iter().any(|b| *b == b'\n')
}

// The letters, digits and `_` in front, and what follows them.
fn split_name(line: &[u8]) -> (&[u8], &[u8])
    ensures front { result.0.now ≡ name_part line.now }
    ensures rest { result.1.now ≡ after_name line.now }
{
    let mut at = 0;
    for b in line {
        if !is_name_byte(*b) {
            return line.split_at(at);
        }
        at += 1;
    }
    line.split_at(at)
}

// The bytes behind the blanks in front.
fn after_blanks(line: &[u8]) -> &[u8]
    ensures { result.now ≡ after_blanks line.now }
{
    let mut rest = line;
    while let [b, after @ ..] = rest {
        if *b != b' ' {
            return rest;
        }
        rest = after;
    }
    rest
}

fn begins_with_digit(line: &[u8]) -> bool
    ensures { result ≡ begins_with_digit line.now }
{
    match line {
        [b, ..] => is_digit(*b),
        [] => false,
    }
}

// What stands behind a `=` and the blanks behind it.
fn after_equals(line: &[u8]) -> Option<&[u8]>
    ensures { option_copied result ≡ after_equals line.now }
{
    match line {
        [b'=', rest @ ..] => Some(after_blanks(rest)),
        _ => None,
    }
}

// The text of the value, where the line defines a variable.
fn value_text(line: &[u8]) -> Option<&[u8]>
    ensures { option_copied result ≡ value_text line.now }
{
    let (name, rest) = split_name(line);
    if name.is_empty() || begins_with_digit(line) {
        return None;
    }
    after_equals(after_blanks(rest))
}

// Whether a quote is open behind a text.
fn is_open(text: &[u8]) -> bool
    ensures { result ≡ is_open text.now }
{
    let mut open = false;
    for b in text {
        if *b == b'\'' {
            open = !open;
        }
    }
    open
}

// Whether a line defines a variable, with a whole value.
fn is_definition(line: &[u8]) -> bool
    ensures { result ≡ is_definition line.now }
{
    match value_text(line) {
        Some(value) => !is_open(value),
        None => false,
    }
}

/// Whether a line has blanks and tabs alone.
pub(crate) fn is_blank_line(line: &[u8]) -> bool
    ensures { result ≡ is_blank_line line.now }
{
    line.iter().all(|b| is_gap(*b))
}

fn is_comment(line: &[u8]) -> bool
    ensures { result ≡ is_comment line.now }
{
    match line {
        [b, ..] => *b == b'#',
        [] => false,
    }
}

/// Whether a line is a rule of its set, or should be one: it is neither blank, nor a comment, nor a definition.
pub(crate) fn is_rule(line: &[u8]) -> bool
    ensures { result ≡ is_rule line.now }
{
    !is_blank_line(line) && !is_comment(line) && !is_definition(line)
}
