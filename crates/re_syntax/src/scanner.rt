//! Reads an expression rune by rune, and says where it stops being one.

ghost use Rattle.std.specs.Prelude.{◌≡◌, ◌<◌, ◌+◌, ◌^◌, IfOk};
ghost use Rattle.re_syntax.specs.Signs.{sign_of, class_sign_of, escaped};
ghost use Rattle.re_syntax.specs.Scan.{within, leaf, often, or, enter, leave, open_class, outside, close_class};
ghost use Rattle.re_syntax.specs.Scan.{in_class, after_bracket, with_range, after_low, high, after_dash, scan, start};

use crate::re::{Re, RuneSpans};
use crate::sign::{ClassSign, Repeat, Sign, class_sign_of, escaped, sign_of};
use am_text::{Items, NoMemory, Rune};
use std::alloc::Global;
use std::mem;

/// Where in an expression the next rune stands.
#[derive(Clone, Copy)]
pub enum Mode {
    Outside,
    /// After a backslash.
    Escaped,
    /// After the bracket that opens a class.
    Opened,
    /// In a class, after a range.
    Next,
    /// There, after a backslash.
    NextEscaped,
    /// In a class, after the one rune of a range.
    Low(Rune),
    /// After the dash of a range that begins with this rune.
    Upto(Rune),
    /// There, after a backslash.
    UptoEscaped(Rune),
}

/// What is read so far.
#[derive(Drop)]
pub struct Scanner {
    pub stop: Option<Rune>,
    pub mode: Mode,
    pub negated: bool,
    pub spans: RuneSpans,
    /// How many groups are open.
    pub depth: usize,
    /// Whether a part has to come next.
    pub expects: bool,
}

/// What a tree is built from.
#[derive(Drop)]
pub enum Token {
    Leaf(Re),
    Often(Repeat),
    Or,
    Enter,
    Leave,
}

/// The scanner after a rune, and the token that ended there; `None` where no expression goes on so.
pub type Scanned = Option<(Scanner, Option<Token>)>;

fn within(mut s: Scanner, mode: Mode) -> Scanned
    ensures { result ≡ within s mode }
{
    s.mode = mode;
    Some((s, None))
}

fn leaf(mut s: Scanner, re: Re) -> Scanned
    ensures { result ≡ leaf s re }
{
    s.mode = Mode::Outside;
    s.expects = false;
    Some((s, Some(Token::Leaf(re))))
}

fn often(s: Scanner, repeat: Repeat) -> Scanned
    ensures { result ≡ often s repeat }
{
    if s.expects {
        None
    } else {
        Some((s, Some(Token::Often(repeat))))
    }
}

fn or(mut s: Scanner) -> Scanned
    ensures { result ≡ or s }
{
    if s.expects {
        return None;
    }
    s.expects = true;
    Some((s, Some(Token::Or)))
}

fn enter(mut s: Scanner) -> Scanned
    requires { s.depth + 1 < 2 ^ 64 }
    ensures { result ≡ enter s }
{
    s.expects = true;
    s.depth += 1;
    Some((s, Some(Token::Enter)))
}

fn leave(mut s: Scanner) -> Scanned
    ensures { result ≡ leave s }
{
    if s.expects || s.depth == 0 {
        return None;
    }
    s.depth -= 1;
    Some((s, Some(Token::Leave)))
}

fn open_class(alloc: Global, mut s: Scanner) -> Scanned
    ensures { result ≡ open_class s }
{
    s.negated = false;
    s.spans = Items::new(alloc);
    within(s, Mode::Opened)
}

fn outside(alloc: Global, s: Scanner, c: Rune) -> Scanned
    requires { s.depth + 1 < 2 ^ 64 }
    ensures { result ≡ outside s (sign_of s.stop c) c }
{
    match sign_of(s.stop, c) {
        Sign::Stop => None,
        Sign::Lone => None,
        Sign::Escape => within(s, Mode::Escaped),
        Sign::Bar => or(s),
        Sign::Repeats(repeat) => often(s, repeat),
        Sign::Open => enter(s),
        Sign::Close => leave(s),
        Sign::Dot => leaf(s, Re::Any),
        Sign::Caret => leaf(s, Re::Start),
        Sign::Dollar => leaf(s, Re::End),
        Sign::OpenClass => open_class(alloc, s),
        Sign::Plain => leaf(s, Re::Lit(c)),
    }
}

fn close_class(alloc: Global, mut s: Scanner) -> Scanned
    ensures { result ≡ close_class s }
{
    if s.spans.is_empty() {
        return None;
    }
    let spans = mem::replace(&mut s.spans, Items::new(alloc));
    let not = s.negated;
    leaf(s, Re::Class { not, spans })
}

fn in_class(alloc: Global, s: Scanner, sign: ClassSign, c: Rune) -> Scanned
    ensures { result ≡ in_class s sign c }
{
    match sign {
        ClassSign::Ends => None,
        ClassSign::Escapes => within(s, Mode::NextEscaped),
        ClassSign::Dash => None,
        ClassSign::Closes => close_class(alloc, s),
        ClassSign::Hat => within(s, Mode::Low(c)),
        ClassSign::Member => within(s, Mode::Low(c)),
    }
}

fn after_bracket(alloc: Global, mut s: Scanner, sign: ClassSign, c: Rune) -> Scanned
    ensures { result ≡ after_bracket s sign c }
{
    match sign {
        ClassSign::Hat => {
            s.negated = true;
            within(s, Mode::Next)
        }
        other => in_class(alloc, s, other, c),
    }
}

fn with_range(mut s: Scanner, first: Rune, last: Rune) -> Result<Scanner, NoMemory>
    ensures { IfOk result (λ new. new ≡ with_range s first last) }
{
    s.spans.push((first, last))?;
    Ok(s)
}

fn after_low(
    alloc: Global,
    s: Scanner,
    first: Rune,
    sign: ClassSign,
    c: Rune,
) -> Result<Scanned, NoMemory>
    ensures { IfOk result (λ new. new ≡ after_low s first sign c) }
{
    match sign {
        ClassSign::Dash => Ok(within(s, Mode::Upto(first))),
        other => Ok(in_class(alloc, with_range(s, first, first)?, other, c)),
    }
}

fn high(s: Scanner, first: Rune, last: Rune) -> Result<Scanned, NoMemory>
    ensures { IfOk result (λ new. new ≡ high s first last) }
{
    if last < first {
        return Ok(None);
    }
    Ok(within(with_range(s, first, last)?, Mode::Next))
}

fn after_dash(s: Scanner, first: Rune, sign: ClassSign, c: Rune) -> Result<Scanned, NoMemory>
    ensures { IfOk result (λ new. new ≡ after_dash s first sign c) }
{
    match sign {
        ClassSign::Ends => Ok(None),
        ClassSign::Dash => Ok(None),
        ClassSign::Closes => Ok(None),
        ClassSign::Escapes => Ok(within(s, Mode::UptoEscaped(first))),
        ClassSign::Hat => high(s, first, c),
        ClassSign::Member => high(s, first, c),
    }
}

/// Reads one rune.
pub fn scan(alloc: Global, s: Scanner, c: Rune) -> Result<Scanned, NoMemory>
    requires { s.depth + 1 < 2 ^ 64 }
    ensures { IfOk result (λ new. new ≡ scan s c) }
{
    let stop = s.stop;
    match s.mode {
        Mode::Outside => Ok(outside(alloc, s, c)),
        Mode::Escaped => Ok(leaf(s, Re::Lit(escaped(c)))),
        Mode::Opened => Ok(after_bracket(alloc, s, class_sign_of(stop, c), c)),
        Mode::Next => Ok(in_class(alloc, s, class_sign_of(stop, c), c)),
        Mode::NextEscaped => Ok(within(s, Mode::Low(escaped(c)))),
        Mode::Low(first) => after_low(alloc, s, first, class_sign_of(stop, c), c),
        Mode::Upto(first) => after_dash(s, first, class_sign_of(stop, c), c),
        Mode::UptoEscaped(first) => high(s, first, escaped(c)),
    }
}

/// The scanner before the first rune.
pub fn start(alloc: Global, stop: Option<Rune>) -> Scanner
    ensures { result ≡ start stop }
{
    Scanner {
        stop,
        mode: Mode::Outside,
        negated: false,
        spans: Items::new(alloc),
        depth: 0,
        expects: true,
    }
}
