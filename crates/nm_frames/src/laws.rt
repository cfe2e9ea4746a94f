//! Laws of the definitions: each function's contract is a law, and its body is empty.

ghost use Rattle.std.specs.Prelude.{◌≡◌, ℕ, ◌+◌, ◌<◌, ◌++◌, List, [], ◌∷◌, All, false, Ok};
ghost use Rattle.std.specs.Prelude.{Err, None, Some, Result, if◌then◌else◌, nat_lt, replicate};
ghost use Rattle.std.specs.Prelude.{take, true, ◌^◌};
ghost use Rattle.std.specs.List.{AllByRecursion};
ghost use Rattle.nm_base.specs.declared.limits.TheConstants as limits;
ghost use Rattle.nm_book.specs.Book.{BookValue};
ghost use Rattle.nm_frames.specs.declared.format.TheConstants as format;
ghost use Rattle.nm_frames.specs.declared.format.kind.TheConstants as kind;
ghost use Rattle.nm_frames.specs.declared.frame.Frame.TheVariants.{Have, Bye};
ghost use Rattle.nm_frames.specs.declared.frame.Have.{Have as HaveValue};
ghost use Rattle.nm_frames.specs.Owed.{owed};
ghost use Rattle.nm_frames.specs.Told.{IsOwedFrom, IsSilent, IsUnasked, IsUntold, MayLeave};
ghost use Rattle.nm_frames.specs.declared.frame.Frame.{Frame};
ghost use Rattle.nm_frames.specs.declared.fault.FrameFault.{FrameFault};
ghost use Rattle.nm_frames.specs.declared.session_fault.SessionFault.TheVariants as fault;
ghost use Rattle.nm_frames.specs.declared.version.Version.{Version};
ghost use Rattle.nm_frames.specs.declared.version.Version.TheVariants.{One, Two};
ghost use Rattle.nm_frames.specs.Frame.{IsFrame, data_frame, frame_octets, have_frame};
ghost use Rattle.nm_frames.specs.Frame.{hello_frame, null_frame};
ghost use Rattle.nm_frames.specs.Samples.{digest, greeted, own_hello, session};
ghost use Rattle.nm_frames.specs.Stream.{Splits, deciding_octets, fault_shown};
ghost use Rattle.nm_frames.specs.Reader.{ReaderValue};
ghost use Rattle.nm_frames.specs.Pieces.{FeedsAll, HasRead, new_reader, stream_of};
ghost use Rattle.nm_frames.specs.Session.{SessionValue, broken, is_there, taken};
ghost use Rattle.nm_frames.specs.Lives.{AreNumbered, SessionStep};

/// No frame's octets begin another's.
pub fn no_frame_begins_another()
    ensures { (f g : Frame) (x y : List ℕ) → IsFrame f → IsFrame g
        → frame_octets f ++ x ≡ frame_octets g ++ y → (f ≡ g) × (x ≡ y) }
{}

/// Octets are frames and a rest in one way, and in no other.
pub fn one_stream()
    ensures splits { (stream : List ℕ) → All (λ octet. octet < 256) stream
        → (frames : List Frame) × (rest : List ℕ) × Splits stream frames rest }
    ensures once { (stream : List ℕ) (fs gs : List Frame) (r q : List ℕ)
        → Splits stream fs r → Splits stream gs q → (fs ≡ gs) × (r ≡ q) }
{}

/// A fault is decided by its octet and no earlier one: octets that end before it show none. It
/// stays, whatever octets follow.
pub fn faults_show_at_their_octet()
    ensures decided { (octets : List ℕ) (e : FrameFault) → fault_shown octets ≡ Some e
        → (k : ℕ) → fault_shown (take k octets)
        ≡ (if nat_lt k (deciding_octets e octets) then None else Some e) }
    ensures stays { (octets more : List ℕ) (e : FrameFault) → fault_shown octets ≡ Some e
        → fault_shown (octets ++ more) ≡ Some e }
{}

/// After any pieces, whatever the answers, the frames are those of the stream that came. The reader
/// has failed exactly if the stream's rest shows a fault.
pub fn any_pieces_are_the_stream()
    ensures { (pieces : List (List ℕ × Result Unit FrameFault)) (reader : ReaderValue)
        (frames : List Frame) → FeedsAll new_reader [] pieces reader frames
        → HasRead (stream_of pieces) reader frames }
{}

/// However a stream is cut, the frames and the reader are the same.
pub fn cuts_do_not_matter()
    ensures { (ps qs : List (List ℕ × Result Unit FrameFault)) (one other : ReaderValue)
        (fs gs : List Frame) → FeedsAll new_reader [] ps one fs
        → FeedsAll new_reader [] qs other gs → stream_of ps ≡ stream_of qs
        → (fs ≡ gs) × (one ≡ other) }
{}

/// A session that owes nothing, and has not sent Bye, has sent Hello, has asked for each incoming
/// channel, and has sent all of each channel for which the peer has asked, its last promise too;
/// and the book has something left to do, or the peer has not asked for some channel. So all that
/// there is to send is sent.
pub fn a_silent_session_has_told_all()
    ensures { (s : SessionValue) (b : BookValue) → owed s b ≡ None → s.bye_given ≡ false
        → IsSilent s b }
{}

/// Bye comes last, and once: nothing is left for the book to do, and each channel was asked for and
/// sent, its last promise too.
pub fn bye_comes_last()
    ensures { (s : SessionValue) (b : BookValue) → owed s b ≡ Some Bye → MayLeave s b }
{}

/// After a Have all that follows is owed, and the promise too, whatever was given before. After a
/// break nothing counts as sent, and the session begins at Hello again.
pub fn what_was_lost_is_owed_again()
    ensures asked { (s t : SessionValue) (h : HaveValue) → taken s (Have h) ≡ Ok t
        → AllByRecursion (IsOwedFrom h.channel h.count) t.outgoing }
    ensures broken { (s : SessionValue) → AllByRecursion IsUnasked (broken s).incoming
        × AllByRecursion IsUntold (broken s).outgoing
        × (is_there (broken s).hello_given ≡ false) × ((broken s).bye_given ≡ false) }
{}

/// Over any frames taken and given, and breaks, each message that a session gives on a channel has
/// the number of the peer's last Have, or the one after that of the message given before. A session
/// that has lived already goes on from its cursor.
pub fn messages_are_consecutive()
    ensures { (channel : ℕ) (steps : List SessionStep) (last : SessionValue)
        → AreNumbered channel steps last }
{}

/// The kinds of frames, as numbers.
pub fn frame_kinds()
    ensures hello { kind.HELLO ≡ 1 }
    ensures have { kind.HAVE ≡ 2 }
    ensures message { kind.DATA ≡ 3 }
    ensures null { kind.NULL ≡ 4 }
    ensures bye { kind.BYE ≡ 5 }
{}

/// The magic octets of a Hello: "NMS1".
pub fn magic_octets()
    ensures { format.MAGIC ≡ 0x4e ∷ 0x4d ∷ 0x53 ∷ 0x31 ∷ [] }
{}

/// As numbers: how many octets the length of a frame has, a digest, and the bodies of the kinds; of
/// a message's body, those before its packet.
pub fn frame_sizes()
    ensures length { format.LENGTH_OCTETS ≡ 4 }
    ensures digest { format.DIGEST_OCTETS ≡ 32 }
    ensures hello { format.HELLO_OCTETS ≡ 44 }
    ensures have { format.HAVE_OCTETS ≡ 13 }
    ensures message { format.DATA_HEADER_OCTETS ≡ 21 }
    ensures null { format.NULL_OCTETS ≡ 21 }
    ensures bye { format.BYE_OCTETS ≡ 1 }
{}

/// The greatest body is that of a message with the greatest packet, and the greatest frame has its
/// length, too.
pub fn greatest_frame()
    ensures body { limits.MAX_BODY_OCTETS
        ≡ format.DATA_HEADER_OCTETS + limits.MAX_PACKET_OCTETS }
    ensures frame { limits.MAX_FRAME_OCTETS ≡ format.LENGTH_OCTETS + limits.MAX_BODY_OCTETS }
{}

/// The octets of frames, written out: the length of what follows it, the kind, and the fields, with
/// the greatest octets first.
pub fn octets_of_frames()
    ensures hello { frame_octets (hello_frame 2 3 1 (replicate 32 9))
        ≡ 0 ∷ 0 ∷ 0 ∷ 44 ∷ 1 ∷ 78 ∷ 77 ∷ 83 ∷ 49 ∷ 0 ∷ 2 ∷ 0 ∷ 0 ∷ 0 ∷ 3 ∷ 1
        ∷ replicate 32 9 }
    ensures have { frame_octets (have_frame 258 (2 ^ 32 + 5))
        ≡ 0 ∷ 0 ∷ 0 ∷ 13 ∷ 2 ∷ 0 ∷ 0 ∷ 1 ∷ 2 ∷ 0 ∷ 0 ∷ 0 ∷ 1 ∷ 0 ∷ 0 ∷ 0 ∷ 5 ∷ [] }
    ensures message { frame_octets (data_frame 258 3 1_000_000 (69 ∷ 70 ∷ []))
        ≡ 0 ∷ 0 ∷ 0 ∷ 23 ∷ 3 ∷ 0 ∷ 0 ∷ 1 ∷ 2 ∷ 0 ∷ 0 ∷ 0 ∷ 0 ∷ 0 ∷ 0 ∷ 0 ∷ 3
        ∷ 0 ∷ 0 ∷ 0 ∷ 0 ∷ 0 ∷ 15 ∷ 66 ∷ 64 ∷ 69 ∷ 70 ∷ [] }
    ensures null { frame_octets (null_frame 258 3 1_000_000)
        ≡ 0 ∷ 0 ∷ 0 ∷ 21 ∷ 4 ∷ 0 ∷ 0 ∷ 1 ∷ 2 ∷ 0 ∷ 0 ∷ 0 ∷ 0 ∷ 0 ∷ 0 ∷ 0 ∷ 3
        ∷ 0 ∷ 0 ∷ 0 ∷ 0 ∷ 0 ∷ 15 ∷ 66 ∷ 64 ∷ [] }
    ensures bye { frame_octets Bye ≡ 0 ∷ 0 ∷ 0 ∷ 1 ∷ 5 ∷ [] }
{}

/// What a session takes, on one that is written out. The first frame is a Hello of version 1 or 2,
/// of the same topology, of replica 0 or 1 of the peer; no later one is a Hello. A Have is of a
/// channel that goes to the peer, a message of one that comes from it. After Bye nothing is taken.
pub fn what_a_session_takes()
    ensures first { (taken session (hello_frame 1 0 0 digest) ≡ Ok (greeted One))
        × (taken session (hello_frame 2 0 1 digest)
        ≡ Ok (record (greeted Two) { peer_replica = Some 1 })) }
    ensures versions { (taken session (hello_frame 0 0 0 digest) ≡ Err fault.Version)
        × (taken session (hello_frame 3 1 2 (8 ∷ [])) ≡ Err fault.Version) }
    ensures peers { (taken session (hello_frame 2 1 2 (8 ∷ [])) ≡ Err fault.Topology)
        × (taken session (hello_frame 2 1 0 digest) ≡ Err fault.Peer)
        × (taken session (hello_frame 2 0 2 digest) ≡ Err fault.Peer) }
    ensures order { (v : Version) (n : ℕ) → (taken (greeted v) (own_hello 2) ≡ Err fault.Order)
        × (taken session (have_frame 5 n) ≡ Err fault.Order)
        × (taken session (null_frame 4 0 n) ≡ Err fault.Order)
        × (taken session Bye ≡ Err fault.Order) }
    ensures have { (v : Version) (n : ℕ)
        → (taken (greeted v) (have_frame 5 n) ≡ Ok (record (greeted v) {
          outgoing = record { channel = 5; cursor = Some n; last_null = None } ∷ [];
        })) × (taken (greeted v) (have_frame 4 n) ≡ Err fault.Channel) }
    ensures message { (v : Version) (n t : ℕ) (packet : List ℕ)
        → (taken (greeted v) (data_frame 4 n t packet) ≡ Ok (greeted v))
        × (taken (greeted v) (data_frame 5 n t packet) ≡ Err fault.Channel)
        × (taken (greeted v) (null_frame 4 n t) ≡ Ok (greeted v))
        × (taken (greeted v) (null_frame 5 n t) ≡ Err fault.Channel) }
    ensures bye { (v : Version) (s : SessionValue) (f : Frame)
        → (taken (greeted v) Bye ≡ Ok (record (greeted v) { bye_taken = true }))
        × (taken (record s { bye_taken = true }) f ≡ Err fault.Order) }
{}

/// The version of a session's Hello, on one that is written out: 2 at first, and 1 to a peer whose
/// Hello had 1. After a break before the peer's Hello it is the other version, and else 2 again.
pub fn what_a_session_offers()
    ensures first { (b : BookValue) → (owed session b ≡ Some (own_hello 2))
        × (owed (greeted Two) b ≡ Some (own_hello 2))
        × (owed (greeted One) b ≡ Some (own_hello 1)) }
    ensures unheard { (b : BookValue)
        → (owed (broken (record session { hello_given = Some Two })) b ≡ Some (own_hello 1))
        × (owed (broken (record session { hello_given = Some One })) b ≡ Some (own_hello 2)) }
    ensures heard { (b : BookValue) (v w : Version)
        → owed (broken (record (greeted v) { hello_given = Some w })) b ≡ Some (own_hello 2) }
{}
