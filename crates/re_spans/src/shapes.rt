//! Parts of which a look tells where their matches end.

ghost use Rattle.std.specs.Prelude.{◌≡◌, IfSome};
ghost use Rattle.re_syntax.specs.Tree.{tree};
ghost use Rattle.re_spans.specs.Shapes.{HasLength, is_repeated};

use re_syntax::Re;

/// How many runes each match of a leaf has.
pub fn leaf_length(re: &Re) -> Option<usize>
    ensures { IfSome result (HasLength (tree re.now)) }
{
    match re {
        Re::Lit(_) => Some(1),
        Re::Any => Some(1),
        Re::Class { .. } => Some(1),
        Re::Start => Some(0),
        Re::End => Some(0),
        _ => None,
    }
}

/// Whether several matches of a part one after another are one of its matches: it is a repetition, maybe in groups.
pub fn is_repeated(re: &Re) -> bool
    ensures { result ≡ is_repeated (tree re.now) }
{
    let mut part = re;
    'parts: loop {
        match part {
            Re::Star(_) => return true,
            Re::Plus(_) => return true,
            Re::Opt(a) => part = a,
            Re::Group(_, a) => part = a,
            _ => return false,
        }
    }
}
