// Batches: the reader of their forms, and the sheet that answers them.
#![tactic(auto)]

pub mod compose;
mod fixed;
pub mod form;
mod parts;
pub mod reader;
pub mod reading;
pub mod samples;
mod scan;
pub mod sheet;
pub mod text;
