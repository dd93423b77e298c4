/// The head of a report: the shape and the number of nodes of a lattice, the seal of the archive if it has one, and how
/// many blocks are damaged, peeled, solved and lost.
#[derive(Clone, Copy, Debug, PartialEq, Eq)]
pub struct Head {
    pub alpha: u8,
    pub s: u8,
    pub p: u8,
    pub n: u32,
    pub seal: Option<[u8; 32]>,
    pub damaged: u32,
    pub peeled: u32,
    pub solved: u32,
    pub lost: u32,
}
