/// How many blocks were damaged and restored by single equations, restored by sums of equations, and lost.
#[derive(Clone, Copy, Debug, PartialEq, Eq)]
pub struct Outcome {
    pub peeled: u32,
    pub solved: u32,
    pub lost: u32,
}
