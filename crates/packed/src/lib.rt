// What the case programs of the gate share, `link_cases` and `plan_cases`; no part of the product. Their input is packed commands, one
// after the other: numbers and texts out of a command (`command`), and a value stored into one number of a tree (`stored`).
// They run in the two programs, and the answers are compared with the written-down ones.
#![tactic(auto)]

pub mod command;
pub mod stored;
