//! Names of replicas.

ghost use Rattle.std.specs.Prelude.{◌≡◌};
ghost use Rattle.nm_policy.specs.Names.{are_same};

use nm_frames::ReplicaName;

/// A copy of a name.
pub(crate) fn copy_of(name: &ReplicaName) -> ReplicaName
    ensures { result ≡ name.now }
{
    ReplicaName {
        partition: name.partition,
        replica: name.replica,
    }
}

/// Whether two names are those of one replica.
pub(crate) fn are_same(one: &ReplicaName, other: &ReplicaName) -> bool
    ensures { result ≡ are_same one.now other.now }
{
    one.partition == other.partition && one.replica == other.replica
}
