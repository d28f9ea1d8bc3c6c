// The cases of the calls that stay at 32 bits: the chip loader, plans, special use, live maps. What is kept for them is proved to be the text of the right
// answer.
#![tactic(auto)]

pub mod chip_cases;
pub mod live_turns;
pub mod plan_cases;
pub mod special_cases;
