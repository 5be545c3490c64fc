//! Texts as runes and as bytes, lists, and want of memory.
#![tactic(auto)]

mod ascii;
mod column;
mod escapes;
mod fields;
mod front;
mod items;
mod job;
mod laws;
mod letters;
mod line;
mod memory;
mod number;
mod part;
mod range;
mod requests;
mod roomy;
mod utf8;

pub use ascii::{
    AMPERSAND, AT_SIGN, BACKSLASH, BANG, BAR, CARET, COLON, COMMA, DIGIT_0, DIGIT_9, DOLLAR, DOT,
    DOUBLE_QUOTE, EQUALS, GREATER, HASH, LEFT_BRACE, LEFT_BRACKET, LEFT_PARENTHESIS, LESS,
    LETTER_N, MINUS, NEWLINE, PLUS, QUESTION, QUOTE, RIGHT_BRACE, RIGHT_BRACKET, RIGHT_PARENTHESIS,
    SEMICOLON, SLASH, SPACE, STAR, TAB, UNDERSCORE,
};
pub use column::column11;
pub use escapes::unescape;
pub use fields::{put_around, put_text_end};
pub use front::{after_front, put_words};
pub use items::{Bytes, Ids, Items, NameList, Names, Numbers, Rune, Runes, Words};
pub use job::{Job, JobKind, JobLife, JobLives, Jobs};
pub use laws::{begun_is_front, escapes_are_read_again, pieces_are_joined};
pub use letters::Letters;
pub use line::{cut_field, cut_line, escape, lines, split_line};
pub use memory::NoMemory;
pub use number::{decimal, read_decimal};
pub use part::{Part, decode_part, is_begun};
pub use range::{Range, Spans};
pub use requests::put_request_lines;
pub use roomy::Roomy;
pub use utf8::{decode_whole, encode, is_utf8, utf8_slice};
