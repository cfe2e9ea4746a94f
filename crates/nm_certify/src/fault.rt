//! Why files are not certified.

ghost use Rattle.std.specs.Prelude.{◌≡◌};
ghost use Rattle.nm_base.specs.declared.fault.Fault.{Fault as AnyFault};
ghost use Rattle.nm_base.specs.declared.fault.Fault.TheVariants.{Refused};
ghost use Rattle.nm_known.specs.declared.known_fault.KnownCause.{KnownCause as KnownCauseValue};
ghost use Rattle.nm_certify.specs.Checking.{known_fault, unread};
ghost use Rattle.nm_certify.specs.declared.fault.CertifyCause.TheVariants.{Differs};

use nm_base::{Fault, IfaceNo, PartNo};
use nm_files::{Difference, ReadFault};
use nm_known::{KnownCause, KnownFault};
use nm_rounds::CertFault;
use thiserror::Error;

/// Why files are not certified.
#[derive(Clone, Copy, Debug, PartialEq, Eq, Error)]
pub enum CertifyCause {
    /// The file of what is known of this partition is refused, for this cause. It is the least such
    /// partition.
    #[error("what is known of partition {}: {cause}", partition.number())]
    Known {
        partition: PartNo,
        cause: KnownCause,
    },
    /// The books are not certified.
    #[error("not certified: {0}")]
    NotCertified(CertFault),
    /// They are, each trace file was compared, and the one of this interface differs at this octet,
    /// counted from 0, which stops at 2^64 - 1, and at none before it: there it has another one, or
    /// it ends, or it goes on. It is the least interface whose trace file differs.
    #[error("a trace file differs at octet {octet}")]
    Differs {
        iface: IfaceNo,
        octet: u64,
    },
    /// The books are certified, and a trace file could not be read.
    #[error("a trace file could not be read")]
    Failed,
}

/// Why files are not certified: one of them is at fault, or the books are, or memory was refused.
pub type CertifyFault = Fault<CertifyCause>;

/// What the fault of a partition's file of what is known is to the files.
pub(crate) fn known_fault(partition: PartNo, fault: KnownFault) -> CertifyFault
    ensures { result ≡ known_fault partition fault }
{
    match fault {
        KnownFault::Memory => CertifyFault::Memory,
        KnownFault::Refused(cause) => CertifyFault::Refused(CertifyCause::Known {
            partition,
            cause,
        }),
    }
}

/// What it is to the files that a trace file could not be read.
pub fn unread(fault: &ReadFault) -> CertifyFault
    ensures { result ≡ unread fault.now }
{
    match fault {
        ReadFault::Memory => CertifyFault::Memory,
        ReadFault::Refused(_) => CertifyFault::Refused(CertifyCause::Failed),
    }
}

/// What the least difference of a trace file is to them.
pub(crate) fn differs(found: Difference) -> CertifyFault
    ensures { result ≡ Refused (Differs found.iface found.octet) }
{
    CertifyFault::Refused(CertifyCause::Differs {
        iface: found.iface,
        octet: found.octet,
    })
}
