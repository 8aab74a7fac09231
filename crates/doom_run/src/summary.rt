// What the line of an exercise tells.

// What an exercise counted.
#[derive(Clone, Copy)]
pub struct Summary {
    pub sectors: u64,
    pub views: u64,
    pub frames: u64,
    pub bytes: u64,
    pub sum: u64,
}
