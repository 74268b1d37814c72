//! What is added up over points.

/// What a question for a number adds up.
#[derive(Clone, Copy, Debug)]
pub(crate) enum Measure {
    Count,
    Weight,
}
