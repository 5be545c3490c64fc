//! Why an action isn't done.

/// Why an action isn't done, as it is said in a line of an errors window.
#[derive(Clone, Copy, Debug, PartialEq, Eq)]
pub enum ActionFault {
    /// Get or Put is given no name, and the window has none.
    NoFileName,
    /// There is no file or directory of that name, or a file can't be stored there.
    FileNotFound,
    /// The body would have more than 16,777,216 runes.
    TextTooLong,
}
