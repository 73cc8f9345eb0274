// What a run shows of a call.
use calls::call::{Answer, Call};

// A call, its answer, and the 64 net positions after it.
#[derive(Clone, Copy)]
pub struct Entry {
    pub call: Call,
    pub answer: Answer,
    pub nets: [i32; 64],
}
