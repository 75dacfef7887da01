/// A row, by its place in a list, and its price.
#[derive(Clone, Copy, Debug, PartialEq, Eq)]
pub struct InducedChoice {
    pub place: u64,
    pub cost: u64,
}
