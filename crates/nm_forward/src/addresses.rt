//! The addresses of a node.

ghost use Rattle.std.specs.Prelude.{◌≡◌, ℕ, nat_eq, IfOk};
ghost use Rattle.std.specs.HashSet as bag;
ghost use Rattle.std.specs.List.{list_any};
ghost use Rattle.nm_forward.specs.State.{addresses_at};

use nm_base::NodeNo;
use nm_packet::Address;
use nm_topology::parts::Iface;
use std::alloc::{AllocError, Global};
use std::collections::HashSet;
use std::marker::Model;

/// Up to so many addresses are looked through: that takes less time than a look-up in the set.
const FEW: usize = 8;

/// The addresses of a node's interfaces, beside a set of them, so that a test goes over no long
/// list. A clause sees the list.
#[derive(Drop)]
pub struct Addresses {
    /// In the order of the interfaces.
    list: Vec<Address>,
    set: HashSet<u32>,
}

impl Model for Addresses {
    ghost use Rattle.std.specs.Prelude.{◌≡◌, List, ℕ, nat_eq};
    ghost use Rattle.std.specs.List.{list_any};
    ghost use Rattle.std.specs.HashSet as bag;

    ghost Value = { List ℕ };

    ghost view = { λ a. a.list.items };

    ghost invariant = { λ a. (q : ℕ)
        → bag.contains nat_eq a.set q ≡ list_any (nat_eq q) a.list.items };
}

/// These addresses as a set.
fn set_of(alloc: Global, list: &[Address]) -> Result<HashSet<u32>, AllocError>
    ensures { IfOk result (λ s. (q : ℕ) → bag.contains nat_eq s q ≡ list_any (nat_eq q) list.now) }
{
    let mut set = HashSet::new(alloc);
    for address in list {
        set.insert(address.bits())?;
    }
    Ok(set)
}

impl Addresses {
    /// The addresses of the interfaces of this node, in the order of the interfaces.
    fn list_of(alloc: Global, ifaces: &[Iface], node: NodeNo) -> Result<Vec<Address>, AllocError>
        ensures { IfOk result (λ v. v.items ≡ addresses_at node ifaces.now) }
    {
        ifaces
            .iter()
            .filter(|iface| iface.node() == node)
            .map(|iface| iface.address())
            .collect(alloc)
    }

    /// The addresses of the interfaces of this node.
    pub fn of_node(alloc: Global, ifaces: &[Iface], node: NodeNo) -> Result<Self, AllocError>
        ensures { IfOk result (λ a. a ≡ addresses_at node ifaces.now) }
    {
        let list = Self::list_of(alloc, ifaces, node)?;
        let set = set_of(alloc, &list)?;
        Ok(Addresses { list, set })
    }

    /// Whether the address is among them.
    pub fn contains(&self, address: Address) -> bool
        ensures { result ≡ list_any (nat_eq address) self.now }
    {
        if self.list.len() <= FEW {
            return self.list.iter().any(|own| address == *own);
        }
        self.set.contains(&address.bits())
    }
}
