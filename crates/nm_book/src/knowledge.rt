//! What a replica knows, as another one gets it.

ghost use Rattle.std.specs.Prelude.{◌≡◌, IfOk, length, map, slice_index_or};
ghost use Rattle.nm_model.specs.Knowledge.{nothing_known};
ghost use Rattle.nm_book.specs.BookPart.{KnowsIncoming};
ghost use Rattle.nm_book.specs.Merging.{is_of, kept_of};

use crate::channels::comes_in;
use nm_base::{ChanNo, PartNo};
use nm_knowledge::Know;
use nm_topology::Topology;
use std::alloc::{AllocError, Global};
use std::marker::Model;

/// What a replica knows of each channel that comes into its partition, with the topology's digest
/// and the partition. Packets are shared with the replica.
#[derive(Drop)]
pub struct Knowledge {
    digest: [u8; 32],
    partition: PartNo,
    /// By channel number, of each channel that comes in.
    incoming: Vec<Option<Know>>,
    /// What is known of any other channel.
    nothing: Know,
}

impl Model for Knowledge {
    ghost use Rattle.std.specs.Prelude.{◌≡◌, map};
    ghost use Rattle.nm_model.specs.Knowledge.{nothing_known};
    ghost use Rattle.nm_book.specs.Merging.{KnowledgeValue, kept_of};

    ghost Value = { KnowledgeValue };

    ghost view = { λ k. record {
      digest = k.digest;
      partition = k.partition;
      knows = map kept_of k.incoming.items;
    } };

    ghost invariant = { λ k. k.nothing ≡ nothing_known };
}

/// What is known of the channels that come in, once more.
fn copy_incoming(
    alloc: Global,
    topology: &Topology,
    partition: PartNo,
    knows: &[Know],
) -> Result<Vec<Option<Know>>, AllocError>
    requires count { length knows.now ≡ length topology.now.receivers }
    requires incoming { KnowsIncoming topology.now partition knows.now }
    ensures { IfOk result (λ copies. map kept_of copies.items ≡ knows.now) }
{
    let mut copies = Vec::with_capacity(alloc, knows.len())?;
    for number in 0..knows.len() {
        let copy = if comes_in(topology, partition, topology.channel_number(number)) {
            Some(knows[number].copy(alloc)?)
        } else {
            None
        };
        copies.push(copy)?;
    }
    Ok(copies)
}

impl Knowledge {
    /// What a replica of the partition knows.
    ///
    /// # Errors
    ///
    /// If memory was refused.
    pub(crate) fn new(
        alloc: Global,
        topology: &Topology,
        partition: PartNo,
        knows: &[Know],
    ) -> Result<Self, AllocError>
        requires count { length knows.now ≡ length topology.now.receivers }
        requires incoming { KnowsIncoming topology.now partition knows.now }
        ensures { IfOk result (λ k. k ≡ record {
          digest = topology.now.digest;
          partition = partition;
          knows = knows.now;
        }) }
    {
        let incoming = copy_incoming(alloc, topology, partition, knows)?;
        Ok(Knowledge {
            digest: topology.digest(),
            partition,
            incoming,
            nothing: Know::new(alloc),
        })
    }

    /// Whether it is that of a replica of this partition of a topology with this digest and as many
    /// channels.
    pub(crate) fn is_of(&self, topology: &Topology, partition: PartNo) -> bool
        ensures { result ≡ is_of topology.now partition self.now }
    {
        self.digest == topology.digest()
            && self.partition == partition
            && self.incoming.len() == topology.receivers().len()
    }

    /// What is known of a channel: nothing, if it does not come in.
    pub(crate) fn of(&self, channel: ChanNo) -> &Know
        ensures { result.now ≡ slice_index_or self.now.knows channel nothing_known }
    {
        match self.incoming.get(channel.index()) {
            Some(Some(know)) => know,
            _ => &self.nothing,
        }
    }
}
