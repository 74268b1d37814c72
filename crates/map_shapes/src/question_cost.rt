// What a question cost.

/// How many parts a question was put to, with the most that there may be, and how many entries were touched.
#[derive(Clone, Copy, Debug, PartialEq, Eq)]
pub struct QuestionCost {
    pub parts: u32,
    pub part_bound: u32,
    pub touches: u64,
}
