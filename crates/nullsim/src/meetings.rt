//! Whom a node has met, in words: for which peer it waits, and which has another topology.

use crate::addresses::read_node;
use nm_command::{Command, NodeArguments};
use nm_peers::{Listener, peers_of};
use nm_progress::{PeerName, Progress};
use std::alloc::{AllocError, Global};
use std::io;
use std::net::SocketAddr;

/// Where the peers of a node listen.
#[derive(Drop)]
struct NodePeers {
    listeners: Vec<Listener>,
    /// The addresses of those that it calls, by their numbers.
    called: Vec<SocketAddr>,
}

impl NodePeers {
    /// Those of a node, by its inputs.
    fn read(rt: &HostRuntime, words: &NodeArguments<'_>) -> io::Result<Option<NodePeers>> {
        let Some((topology, listeners)) = read_node(rt, words)? else {
            return Ok(None);
        };
        let own = words.partition;
        let peers = peers_of(rt.alloc(), &topology, own, listeners.as_slice())?;
        Ok(Some(NodePeers {
            listeners,
            called: peers.addresses,
        }))
    }

    /// Where a peer listens.
    fn listener(&self, peer: PeerName) -> Option<&Listener> {
        match peer {
            PeerName::Called(number) => {
                let address = self.called.get(usize::try_from(number).ok()?)?;
                let mut all = self.listeners.iter();
                all.find(|one| SocketAddr::V4(one.address) == *address)
            }
            PeerName::Caller(caller) => {
                let mut all = self.listeners.iter();
                all.find(|one| one.partition == caller.partition && one.replica == caller.replica)
            }
        }
    }
}

/// A node and its peers, which are read when they are needed, and what was already said of them.
#[derive(Drop)]
pub struct Meetings<'a> {
    rt: &'a HostRuntime,
    words: &'a [String],
    peers: Option<NodePeers>,
    were_read: bool,
    has_said_differing: bool,
    has_said_closing: bool,
}

/// What is said of a peer that ended a connection before its Hello.
const MAY_DIFFER: &str = "ended a connection before its Hello: it may have another topology";

impl<'a> Meetings<'a> {
    /// Nothing was said yet. Words of another kind than `node` have no peers.
    pub fn new(rt: &'a HostRuntime, words: &'a [String]) -> Self {
        Meetings {
            rt,
            words,
            peers: None,
            were_read: false,
            has_said_differing: false,
            has_said_closing: false,
        }
    }

    /// The allocator of its texts.
    pub fn alloc(&self) -> Global {
        self.rt.alloc()
    }

    /// Reads the peers, unless that was tried.
    fn read(&mut self) {
        if self.were_read {
            return;
        }
        self.were_read = true;
        if let Some(Command::Node(words)) = Command::of(self.words) {
            if let Ok(found) = NodePeers::read(self.rt, &words) {
                self.peers = found;
            }
        }
    }

    /// A peer in words, if it is known: `P R at A.B.C.D:PORT`.
    fn name_of(&mut self, peer: PeerName) -> Result<Option<String>, AllocError> {
        self.read();
        let Some(peers) = &self.peers else {
            return Ok(None);
        };
        let Some(found) = peers.listener(peer) else {
            return Ok(None);
        };
        let (partition, replica) = (found.partition.number(), found.replica);
        let text = format!(in self.rt.alloc(); "{partition} {replica} at {}", found.address)?;
        Ok(Some(text))
    }

    /// A sentence on a peer, if there is one and it is known.
    fn sentence(
        &mut self,
        peer: Option<PeerName>,
        before: &str,
        behind: &str,
    ) -> Result<Option<String>, AllocError> {
        let Some(peer) = peer else {
            return Ok(None);
        };
        let Some(name) = self.name_of(peer)? else {
            return Ok(None);
        };
        Ok(Some(format!(in self.rt.alloc(); "{before}{name}{behind}")?))
    }

    /// For whom the node waits, as the end of a line, if it waits for somebody.
    ///
    /// # Errors
    ///
    /// If memory was refused.
    pub fn awaited(&mut self, progress: &Progress) -> Result<Option<String>, AllocError> {
        self.sentence(progress.awaited(), ", waits for ", "")
    }

    /// Which peer has another topology, or may have one, in a line, if that was not said yet.
    ///
    /// # Errors
    ///
    /// If memory was refused.
    pub fn news(&mut self, progress: &Progress) -> Result<Option<String>, AllocError> {
        let (differing, closing) = (progress.differing(), progress.closing());
        if differing.is_some() && !self.has_said_differing {
            self.has_said_differing = true;
            return self.sentence(differing, "", " has another topology\n");
        }
        if closing.is_some() && !self.has_said_closing {
            self.has_said_closing = true;
            let behind = format!(in self.rt.alloc(); " {MAY_DIFFER}\n")?;
            return self.sentence(closing, "", behind.as_str());
        }
        Ok(None)
    }

    /// Why a node is stalled, as far as one peer is the reason.
    ///
    /// # Errors
    ///
    /// If memory was refused.
    pub fn stalled(&mut self, progress: &Progress) -> Result<Option<String>, AllocError> {
        let differing = progress.differing();
        if differing.is_some() {
            return self.sentence(differing, "", " has another topology");
        }
        let waits = "nothing came for a minute; it waits for ";
        let awaited = progress.awaited();
        if awaited.is_some() && awaited == progress.closing() {
            let behind = format!(in self.rt.alloc(); ", which {MAY_DIFFER}")?;
            return self.sentence(awaited, waits, behind.as_str());
        }
        self.sentence(awaited, waits, "")
    }
}
