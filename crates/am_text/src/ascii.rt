//! Names of runes of ASCII.

use crate::items::Rune;

/// A tab.
pub const TAB: Rune = 0x09;

/// A newline.
pub const NEWLINE: Rune = 0x0A;

/// A blank.
pub const SPACE: Rune = 0x20;

/// `!`.
pub const BANG: Rune = 0x21;

/// `"`.
pub const DOUBLE_QUOTE: Rune = 0x22;

/// `#`.
pub const HASH: Rune = 0x23;

/// `$`.
pub const DOLLAR: Rune = 0x24;

/// `&`.
pub const AMPERSAND: Rune = 0x26;

/// `'`.
pub const QUOTE: Rune = 0x27;

/// `(`.
pub const LEFT_PARENTHESIS: Rune = 0x28;

/// `)`.
pub const RIGHT_PARENTHESIS: Rune = 0x29;

/// `*`.
pub const STAR: Rune = 0x2A;

/// `+`.
pub const PLUS: Rune = 0x2B;

/// `,`.
pub const COMMA: Rune = 0x2C;

/// `-`.
pub const MINUS: Rune = 0x2D;

/// `.`.
pub const DOT: Rune = 0x2E;

/// `/`.
pub const SLASH: Rune = 0x2F;

/// `0`.
pub const DIGIT_0: Rune = 0x30;

/// `9`.
pub const DIGIT_9: Rune = 0x39;

/// `:`.
pub const COLON: Rune = 0x3A;

/// `;`.
pub const SEMICOLON: Rune = 0x3B;

/// `<`.
pub const LESS: Rune = 0x3C;

/// `=`.
pub const EQUALS: Rune = 0x3D;

/// `>`.
pub const GREATER: Rune = 0x3E;

/// `?`.
pub const QUESTION: Rune = 0x3F;

/// `@`.
pub const AT_SIGN: Rune = 0x40;

/// `[`.
pub const LEFT_BRACKET: Rune = 0x5B;

/// `\`.
pub const BACKSLASH: Rune = 0x5C;

/// `]`.
pub const RIGHT_BRACKET: Rune = 0x5D;

/// `^`.
pub const CARET: Rune = 0x5E;

/// `_`.
pub const UNDERSCORE: Rune = 0x5F;

/// `{`.
pub const LEFT_BRACE: Rune = 0x7B;

/// `|`.
pub const BAR: Rune = 0x7C;

/// `}`.
pub const RIGHT_BRACE: Rune = 0x7D;

/// `n`.
pub const LETTER_N: Rune = 0x6E;
