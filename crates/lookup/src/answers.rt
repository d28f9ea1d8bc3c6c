// What a lookup finds.

// A longest match: its hop and its length.
#[derive(Clone, Copy, Debug, PartialEq, Eq)]
pub struct Match {
    pub hop: u8,
    pub length: u8,
}
