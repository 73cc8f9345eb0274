// A line of the sheet that answers a batch.
use credit::refusal::Refusal;

// A buffer of this many bytes holds any line of a sheet with its line feed.
pub const MAX_LINE: usize = 256;

#[derive(Clone, Copy)]
pub enum SheetLine {
    // the form of a line is carried out
    Done { line: usize },
    // the group of payments that ends at a line is kept, or undone
    Kept { line: usize },
    Undone { line: usize },
    // the form of a line is refused; for want of room the text tells the group's room and its members
    Refused { line: usize, refusal: Refusal },
    // a member's net position
    Net { member: u32, net: i32 },
    // what b owes a on their line, a below b
    Debt { a: u32, b: u32, debt: i32 },
    End,
}
