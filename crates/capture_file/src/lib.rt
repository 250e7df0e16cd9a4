// A capture in a file: judged a piece at a time, and told in one line. What a file holds no contract can say: those of crate `judge` are over the pieces.
#![tactic(auto)]

mod course;
mod hex;
mod line;

pub use line::judge_capture;
