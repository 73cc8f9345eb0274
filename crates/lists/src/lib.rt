// Lists of fixed capacity that are copied as plain data is, which the kit's `ArrayVec` is not.
#![tactic(auto)]

pub mod few;
