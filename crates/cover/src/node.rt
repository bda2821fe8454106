// Nodes and spans.

// Node (level, index) of a key tree stands over the keys from index * 2^level up to, not including, (index + 1) * 2^level.
#[derive(Clone, Copy, Debug, Default, PartialEq, Eq)]
pub struct Node {
    pub level: u32,
    pub index: u64,
}

// The keys from `from` up to, not including, `to`.
#[derive(Clone, Copy, Debug, PartialEq, Eq)]
pub struct Span {
    pub from: u64,
    pub to: u64,
}
