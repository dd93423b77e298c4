//! Calls that are to fail.

ghost use Rattle.std.specs.Prelude.{◌≡◌, ◌↔◌, IfOk, IsTrue};
ghost use Rattle.aea_io.specs.Fails.{IsNextListed, CountsCall};

use std::alloc::{AllocError, Global};

/// Which calls are to fail, and how many were made.
#[derive(Drop)]
pub struct Fails {
    /// The numbers of the calls that are to fail, from 1.
    pub listed: Vec<u32>,
    /// How many calls were made. The count stops at the greatest u64.
    pub calls: u64,
}

impl Fails {
    /// No call was made yet.
    pub fn new(alloc: Global, listed: &[u32]) -> Result<Fails, AllocError>
        ensures listed { IfOk result (λ f. f.listed.items ≡ listed.now) }
        ensures calls { IfOk result (λ f. f.calls ≡ 0) }
    {
        let listed = listed.to_vec(alloc)?;
        Ok(Fails { listed, calls: 0 })
    }

    /// Counts one more call, and returns whether it is to fail.
    pub fn count_call(&mut self) -> bool
        ensures listed { IsTrue result ↔ IsNextListed self.old }
        ensures counted { CountsCall self.old self.new }
    {
        self.calls = self.calls.saturating_add(1);
        let call = self.calls;
        self.listed.iter().any(|&x| u64::from(x) == call)
    }
}
