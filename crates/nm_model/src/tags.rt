//! Laws of packets with tags.

ghost use Rattle.std.specs.Prelude.{ℕ};
ghost use Rattle.nm_model.specs.Network.{IsNet, IsParted, Net};
ghost use Rattle.nm_model.specs.Run.{one_list};
ghost use Rattle.nm_model.specs.Tags.{IsUntagged, Tagging, tagged};

/// Tags change nothing: the one event list over packets with tags is that without, after any number
/// of events.
pub fn tags_change_nothing<P, N, T>()
    ensures { (net : Net P N) (tags : Tagging P N T) (n : ℕ)
        → IsUntagged (one_list (tagged net tags) n) (one_list net n) }
{}

/// What holds of a network holds of it over packets with tags: so its laws do, too.
pub fn tags_keep_networks<P, N, T>()
    ensures net { (net : Net P N) (tags : Tagging P N T) → IsNet net → IsNet (tagged net tags) }
    ensures parted { (net : Net P N) (tags : Tagging P N T) → IsParted net
        → IsParted (tagged net tags) }
{}
