// What the programs that try cases share: files, lines with columns, lists of marks, answers, the lines of the output and the count.
#![tactic(auto)]

pub mod answer;
pub mod bytes;
pub mod column;
pub mod file;
pub mod group;
pub mod lent;
pub mod numbers;
pub mod say;
pub mod tally;
