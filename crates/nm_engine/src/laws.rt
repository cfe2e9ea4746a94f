//! Laws of the definitions: each function's contract is a law, and its body is empty.

ghost use Rattle.std.specs.Prelude.{◌≡◌, ℕ, ◌<◌, ◌≤◌, true, List, [], ◌∷◌, ◌++◌, length, Option};
ghost use Rattle.std.specs.Prelude.{Some, Ok};
ghost use Rattle.nm_base.specs.Wire.{WireSeen};
ghost use Rattle.nm_book.specs.Accepting.{Takes, message_taken};
ghost use Rattle.nm_book.specs.Book.{BookValue};
ghost use Rattle.nm_book.specs.declared.message.ChannelMessage.TheVariants as message;
ghost use Rattle.nm_book.specs.declared.message.Data.{Data as DataValue};
ghost use Rattle.nm_book.specs.declared.message.Null.{Null as NullValue};
ghost use Rattle.nm_engine.specs.declared.answer.Turn.{Turn};
ghost use Rattle.nm_engine.specs.declared.answer.Turn.TheVariants.{Ended};
ghost use Rattle.nm_engine.specs.Acceptor.{AcceptorValue};
ghost use Rattle.nm_engine.specs.Giving.{OwesNone};
ghost use Rattle.nm_engine.specs.Link.{LinkValue};
ghost use Rattle.nm_engine.specs.Lives.{LinkLives};
ghost use Rattle.nm_engine.specs.Many.{Accounts, GoesOn, HasDue};
ghost use Rattle.nm_engine.specs.Passes.{ByPass, IsMet, LinkState, Owner};
ghost use Rattle.nm_engine.specs.Turn.{Hears, Turns, Went};
ghost use Rattle.nm_frames.specs.declared.frame.Frame.TheVariants.{Data, Null};
ghost use Rattle.nm_frames.specs.Lives.{AreConsecutive, SessionStep, Took, due_after};
ghost use Rattle.nm_frames.specs.Session.{SessionValue};
ghost use Rattle.nm_knowledge.specs.declared.answer.Accepted.{Accepted};

/// Over any number of turns and half turns, whatever they answered, nothing is lost and nothing is
/// made up: the octets received are those of the frames taken and a rest, and the octets written
/// begin those of the frames given.
pub fn nothing_is_lost<W>()
    ensures { (seen : W → WireSeen) (first last : LinkValue W)
        (path : List (Turn × LinkValue W)) → GoesOn seen first path last
        → Accounts seen first last }
{}

/// Over any steps of a link's session, each message given on a channel has the number that is due:
/// that of the session's cursor or of the peer's last Have, and then one more each time.
pub fn messages_are_consecutive()
    ensures { (o : Owner) (h : Option AcceptorValue) (x y : LinkState)
        (steps : List SessionStep) (c : ℕ) (due : Option ℕ) → HasDue c due x.session
        → LinkLives o h x steps y
        → AreConsecutive c due steps × HasDue c (due_after c due steps) y.session }
{}

/// What turns leave. After `Ended` all octets are written, and both ends have sent Bye. A turn that
/// went well read at most 65,536 octets, and held frames back only if the buffer had 131,072 octets
/// or more before the write.
pub fn what_turns_leave<W>()
    ensures ended { (seen : W → WireSeen) (by : ByPass) (old new : LinkValue W)
        → Turns seen by old new Ended → (new.out ≡ []) × (s : SessionValue) × (new.session ≡ Some s)
        × (s.bye_given ≡ true) × (s.bye_taken ≡ true) }
    ensures heard { (seen : W → WireSeen) (by : ByPass) (old new : LinkValue W)
        → Hears seen by old new Ended → (new.out ≡ []) × (s : SessionValue) × (new.session ≡ Some s)
        × (s.bye_given ≡ true) × (s.bye_taken ≡ true) }
    ensures read { (seen : W → WireSeen) (by : ByPass) (old new : LinkValue W)
        (w : Went seen by old new) → length w.moves.came ≤ 65_536 }
    ensures given { (seen : W → WireSeen) (by : ByPass) (old new : LinkValue W)
        (w : Went seen by old new) → length (w.moves.went ++ new.out) < 131_072
        → OwesNone by.owner by.after new.session }
{}

/// A book took in each message and each null message that a link's session took. It had no less
/// than the pass had counted, and is that of the pass's replica if counts are exact.
pub fn what_is_taken_is_told()
    ensures message { (o : Owner) (h : Option AcceptorValue) (x y : LinkState)
        (steps : List SessionStep) (d : DataValue) → LinkLives o h x (Took (Data d) ∷ steps) y
        → (b c : BookValue) × (a : Accepted) × IsMet o x.counts b
        × Takes b c d.channel (message_taken b.knows (message.Data d)) (Ok a) }
    ensures null { (o : Owner) (h : Option AcceptorValue) (x y : LinkState)
        (steps : List SessionStep) (n : NullValue) → LinkLives o h x (Took (Null n) ∷ steps) y
        → (b c : BookValue) × (a : Accepted) × IsMet o x.counts b
        × Takes b c n.channel (message_taken b.knows (message.Null n)) (Ok a) }
{}
