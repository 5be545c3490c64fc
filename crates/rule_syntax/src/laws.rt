//! Laws of the definitions. Each function has laws as its contract, and does nothing.

ghost use Rattle.rule_syntax.specs.Expressions.{HasSize};
ghost use Rattle.rule_syntax.specs.Laws.{ReadsParts, ReadsTexts};

/// A text has a size exactly where it is an expression, and that is one more than the nodes of its tree.
pub fn expressions_have_sizes()
    ensures { HasSize }
{}

/// An argument is read part by part: texts in quotes as their runes, variables by their longest names, and other runes
/// as themselves. A text in quotes is just that text, and one without quotes, `$` and blanks at its end is itself.
pub fn arguments_are_read_in_parts()
    ensures parts { ReadsParts }
    ensures texts { ReadsTexts }
{}
