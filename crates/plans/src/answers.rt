// A step of a plan.

// A step: put the route of this prefix and hop, or take the prefix away. `put` is 0 for a take and anything else for a put; a take's hop is not read. Eight bytes
// without padding: any eight bytes are a step.
#[repr(C)]
#[derive(Clone, Copy, Debug, PartialEq, Eq)]
pub struct Step {
    pub addr: u32,
    pub len: u8,
    pub hop: u8,
    pub put: u8,
    // Never read.
    pub unread: u8,
}
