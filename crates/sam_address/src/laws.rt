//! What holds of all line starts.

ghost use Rattle.sam_address.specs.Laws.{LineStartsAreThose, LineStartsRise};

/// The line starts of a text are 0 and the places right after its newlines, in rising order.
pub fn line_starts_follow_newlines()
    ensures those { LineStartsAreThose }
    ensures rising { LineStartsRise }
{}
