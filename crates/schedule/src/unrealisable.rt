/// No offsets leave every measured latency at zero or above: so many steps are written, of a loop below zero.
#[derive(Clone, Copy, Debug, PartialEq, Eq)]
pub struct Unrealisable {
    pub steps: usize,
}
