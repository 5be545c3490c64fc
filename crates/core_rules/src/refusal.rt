//! Why rules aren't added.

/// Why rules that are written aren't added.
#[derive(Clone, Copy, Debug, PartialEq, Eq)]
pub enum RulesRefusal {
    /// A line is no rule, no definition, not blank and no comment; or it repeats what its set has, or ends a set that
    /// doesn't plumb.
    BadRule,
    /// An expression has more than 2,048 nodes.
    BadExpressionSize,
    /// There would be more than 65,536 ports, or the accepted text and the held one have more than 262,144 bytes.
    TooManyRules,
}
