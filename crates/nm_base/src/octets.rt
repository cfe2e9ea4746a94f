//! A list of octets that contracts see and no memory holds.

ghost use Rattle.std.specs.Prelude.{◌≡◌, ℕ, List, [], ◌++◌};
ghost use Rattle.std.specs.Borrow.{ftrue};

use std::marker::{Model, PhantomData};

/// The octets that went one way over a connection, from the first on: a list for contracts alone.
/// It takes no memory.
#[derive(Drop)]
pub struct Octets {
    marker: PhantomData<()>,
    pub ghost list: { List ℕ },
}

impl Model for Octets {
    ghost also_owns = { λ _. ftrue };
}

// It owns nothing, so it may go to another thread.
unsafe impl Send for Octets {}

impl Octets {
    /// None so far.
    pub fn new() -> Self
        ensures { result.list ≡ [] }
    {
        Octets {
            marker: PhantomData,
        }
    }

    /// These come after those so far.
    pub fn add(&mut self, octets: &[u8])
        ensures { self.new.list ≡ self.old.list ++ octets.now }
    {
        let _ = octets;
    }
}
