//! Of which interfaces the records of a trace are kept.

ghost use Rattle.std.specs.Prelude.{◌≡◌};
ghost use Rattle.nm_base.specs.Wanted.{is_wanted};

use crate::IfaceNo;

/// Of which interfaces the records of a trace are kept.
#[derive(Drop)]
pub enum Wanted {
    All,
    Nothing,
    /// Of this one alone.
    One(IfaceNo),
}

impl Wanted {
    /// Whether the records of this interface are kept.
    #[inline(always)]
    pub fn has(&self, iface: IfaceNo) -> bool
        ensures { result ≡ is_wanted self.now iface }
    {
        match self {
            Wanted::All => true,
            Wanted::Nothing => false,
            Wanted::One(one) => iface == *one,
        }
    }

    /// The same once more.
    pub fn again(&self) -> Self
        ensures { result ≡ self.now }
    {
        match self {
            Wanted::All => Wanted::All,
            Wanted::Nothing => Wanted::Nothing,
            Wanted::One(one) => Wanted::One(*one),
        }
    }
}
