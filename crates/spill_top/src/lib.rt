//! The program's top call: from the words of a command to the bytes of its report.
#![tactic(auto)]

mod check_plan;
mod command;
mod count;
mod counted;
mod ending;
mod job;
mod number;
mod over;
mod parser;
mod passing;
mod plan;
mod plan_file;
mod pooled;
mod queries;
mod ran;
mod report;
mod run;
mod seats;
mod selfcheck;
mod steps;
mod top;
mod unmarked;
mod watched;
mod words;
mod writers;

pub use top::spill_top;
