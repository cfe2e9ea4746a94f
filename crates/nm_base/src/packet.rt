//! Packets.

ghost use Rattle.std.specs.Prelude.{◌≡◌, ℕ, ◌+◌, ◌≤◌, ◌↔◌, List, length, IsSome, IfSome, IfOk};
ghost use Rattle.std.specs.Prelude.{nat_eq};
ghost use Rattle.std.specs.Bool.{OnTrue, OnFalse};
ghost use Rattle.std.specs.Cmp.{partial_equiv_from_equiv};
ghost use Rattle.std.specs.Cmp.Lexicographic.{pointwise, nat_list_eq_equiv};
ghost use Rattle.nm_base.specs.declared.limits.TheConstants.{MAX_PACKET_OCTETS};
ghost use Rattle.nm_base.specs.Packet.{held, overwritten};

use crate::limits::MAX_PACKET_OCTETS;
use bytes::{Bytes, BytesMut};
use std::alloc::{AllocError, Global};
use std::marker::Model;
use std::sync::Arc;

/// Where the octets of a packet are.
#[derive(Drop)]
pub enum Storage {
    /// In a block of the packet's own.
    Own(BytesMut),
    /// In a part of a block that others share.
    Cut(Bytes),
}

impl Storage {
    /// The octets.
    fn octets(&self) -> &[u8]
        ensures { result.now ≡ held self.now }
    {
        match self {
            Storage::Own(octets) => octets.as_slice(),
            Storage::Cut(octets) => octets.as_slice(),
        }
    }

    /// Writes octets over those from an offset on, if the block is the packet's own.
    #[inline(always)]
    fn overwrite(&mut self, offset: usize, octets: &[u8]) -> bool
        requires { offset + length octets.now ≤ length (held self.old) }
        ensures written { OnTrue result
            (held self.new ≡ overwritten (held self.old) offset octets.now) }
        ensures kept { OnFalse result (held self.new ≡ held self.old) }
    {
        match self {
            Storage::Own(own) => {
                let slice = own.as_mut_slice();
                slice[offset..offset + octets.len()].copy_from_slice(octets);
                true
            }
            Storage::Cut(_) => false,
        }
    }
}

/// The octets of a packet, from 1 to 65,535 of them. A clause sees the list of octets. Copies share
/// their octets, and a packet that was cut from a larger block shares that block.
///
/// It is as small as a pointer, since events, queues and records hold packets and move them often.
#[derive(Drop)]
pub struct Packet {
    octets: Arc<Storage>,
}

impl Model for Packet {
    ghost use Rattle.std.specs.Prelude.{ℕ, ◌≤◌, List, length};
    ghost use Rattle.std.specs.Arc.{arc_value};
    ghost use Rattle.nm_base.specs.declared.limits.TheConstants.{MAX_PACKET_OCTETS};
    ghost use Rattle.nm_base.specs.Packet.{held};

    ghost Value = { List ℕ };

    ghost view = { λ p. held (arc_value p.octets) };

    ghost invariant = { λ p. (1 ≤ length (held (arc_value p.octets)))
        × (length (held (arc_value p.octets)) ≤ MAX_PACKET_OCTETS) };
}

impl Clone for Packet {
    ghost is_clone = { λ packet copy. copy ≡ packet };

    fn clone(&self) -> Result<Self, AllocError> {
        let octets = Arc::try_clone(&self.octets)?;
        Ok(Packet { octets })
    }
}

impl PartialEq for Packet {
    ghost eq = { pointwise nat_eq };

    ghost laws = { partial_equiv_from_equiv nat_list_eq_equiv };

    fn eq(&self, other: &Self) -> bool {
        self.octets() == other.octets()
    }
}

impl Eq for Packet {
    ghost laws = { nat_list_eq_equiv };
}

impl Packet {
    /// The packet of these octets, or `None` if they are none or more than 65,535.
    ///
    /// # Errors
    ///
    /// `AllocError` if memory for the count of owners was refused.
    pub fn new(alloc: Global, octets: Bytes) -> Result<Option<Self>, AllocError>
        ensures fits { IfOk result
            (λ p. IsSome p ↔ ((1 ≤ length octets) × (length octets ≤ MAX_PACKET_OCTETS))) }
        ensures value { IfOk result (λ p. IfSome p (λ packet. packet ≡ octets)) }
    {
        if octets.is_empty() || octets.len() > MAX_PACKET_OCTETS {
            return Ok(None);
        }
        Ok(Some(Packet::from_octets(alloc, octets)?))
    }

    /// The packet of these octets, which fit one.
    ///
    /// # Errors
    ///
    /// `AllocError` if memory for the count of owners was refused.
    pub fn from_octets(alloc: Global, octets: Bytes) -> Result<Self, AllocError>
        requires least { 1 ≤ length octets }
        requires greatest { length octets ≤ MAX_PACKET_OCTETS }
        ensures { IfOk result (λ packet. packet ≡ octets) }
    {
        let octets = Arc::new(alloc, Storage::Cut(octets))?;
        Ok(Packet { octets })
    }

    /// The packet of these octets, which fit one. Their block is the packet's own.
    ///
    /// # Errors
    ///
    /// `AllocError` if memory for the count of owners was refused.
    pub fn from_own(alloc: Global, octets: BytesMut) -> Result<Self, AllocError>
        requires least { 1 ≤ length octets.items }
        requires greatest { length octets.items ≤ MAX_PACKET_OCTETS }
        ensures { IfOk result (λ packet. packet ≡ octets.items) }
    {
        let octets = Arc::new(alloc, Storage::Own(octets))?;
        Ok(Packet { octets })
    }

    /// How many octets the packet has.
    pub fn octet_count(&self) -> usize
        ensures count { result ≡ length self.now }
        ensures least { 1 ≤ result }
        ensures greatest { result ≤ MAX_PACKET_OCTETS }
    {
        self.octets().len()
    }

    /// The octets.
    pub fn octets(&self) -> &[u8]
        ensures value { result.now ≡ self.now }
        ensures least { 1 ≤ length self.now }
        ensures greatest { length self.now ≤ MAX_PACKET_OCTETS }
    {
        self.octets.octets()
    }

    /// Writes octets over those from an offset on, if this is the only owner of a block of the
    /// packet's own: whether it is. Else nothing changes.
    #[inline(always)]
    pub fn overwrite(&mut self, offset: usize, octets: &[u8]) -> bool
        requires { offset + length octets.now ≤ length self.old }
        ensures written { OnTrue result (self.new ≡ overwritten self.old offset octets.now) }
        ensures kept { OnFalse result (self.new ≡ self.old) }
    {
        match Arc::get_mut(&mut self.octets) {
            Some(sole) => sole.overwrite(offset, octets),
            None => false,
        }
    }
}

/// Two equal packets, one to send on and one to record, so that every copy is made before anything
/// changes.
#[derive(Drop)]
pub struct Twin {
    pub packet: Packet,
    pub copy: Packet,
    ghost equal: { packet ≡ copy },
}

impl Twin {
    /// The packet and a copy of it.
    pub fn new(packet: Packet) -> Result<Self, AllocError>
        ensures { IfOk result (λ twin. twin.packet ≡ packet) }
    {
        let copy = packet.clone()?;
        Ok(Twin { packet, copy })
    }
}
