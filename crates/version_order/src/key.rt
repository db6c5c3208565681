// The key of a version.

// What decides between versions of one release, in this order.
#[derive(Clone, Copy, PartialEq, Eq, PartialOrd, Ord)]
pub struct Key {
    // No enum: rows and packed words hold the kind as a number.
    pub kind: u64,
    pub pre: u64,
    pub post: Option<u64>,
    pub dev: u64,
}
