// What a rewrite answers. What each call must answer is said in specs/, for any engine that answers it.
#![tactic(auto)]

pub mod engine;

// How many records a rewrite wrote, and how many more they are than the table's.
#[derive(Clone, Copy, Debug, PartialEq, Eq)]
pub struct Rewritten {
    pub count: usize,
    pub change: i64,
}
