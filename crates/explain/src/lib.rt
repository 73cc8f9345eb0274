// Sheets as sentences that a shop can read.
#![tactic(auto)]

mod asks;
mod denial;
mod forms;
mod minutes;
mod names;
pub mod sentence;
mod standing;
pub mod whole;
