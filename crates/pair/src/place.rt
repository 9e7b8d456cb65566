// Who answers for a channel of a pair: the first bank or the second, each under its own number. A number that the first bank has not goes
// to the second, which has it or not.
#[derive(Clone, Copy, Debug, PartialEq, Eq)]
pub(crate) enum Place {
    First(usize),
    Second(usize),
}
