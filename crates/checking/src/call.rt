// What a draft is refused for on its way to a checked rule.

/// Why a draft is not accepted.
#[derive(Clone, Copy, Debug, PartialEq, Eq)]
pub enum Refusal {
    /// The expression or pattern at this place is on level 17.
    TooDeep(usize),
    /// The numeral at this place is too large, or the selection at this place names no part.
    OutOfRange(usize),
    /// The name at this place stands earlier in its pattern.
    Repeated(usize),
    /// At this place the seventeenth free name stands for the first time.
    TooManyNames(usize),
}
