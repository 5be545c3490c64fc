//! How an argument fits the verb of its rule.

/// How an argument fits the verb of its rule.
#[derive(Clone, Copy, Debug, PartialEq, Eq)]
pub enum Fit {
    /// It is no argument of the verb.
    Unfit,
    /// It is one.
    Fits,
    /// It is an expression, and has more than 2,048 nodes.
    TooLarge,
}
