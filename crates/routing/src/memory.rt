use lists::few::Few;
use members::group::Group;

// The last eight groups that were named, the newest first.
#[derive(Clone, Copy)]
pub struct Memory {
    pub(crate) groups: Few<Group, 8>,
}
