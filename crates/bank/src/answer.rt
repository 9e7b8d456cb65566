// No answer came from a channel: it is outside the list, has no supply, is asleep, has no such range, or its units ended first. Not shown to
// anyone, so it has no text.
#[derive(Clone, Copy, Debug, PartialEq, Eq)]
pub struct NoAnswer;
