//! The world: all replicas of a network's partitions, the frames that they ever sent, and every way
//! in which these may come. And the certificate: whether what replicas did is what the whole
//! network does.
#![tactic(auto)]

mod acting;
pub mod certify;
pub mod fault;
pub mod laws;
mod messages;
mod places;
pub mod replay;
mod round;
pub mod rounds;
pub mod same_topology;
pub mod step;
mod world;

pub use certify::CertFault;
pub use fault::ReplayFault;
pub use replay::{ReplayEnd, WorldReport};
pub use step::{StepAnswer, WorldStep};
