//! Computed examples of the definitions.

ghost use Rattle.std.specs.Prelude.{◌≡◌, ℕ, [], ◌∷◌, Option, Some, None};
ghost use Rattle.nm_model.specs.EventList.{least};
ghost use Rattle.nm_model.specs.Network.{IsNet, IsParted};
ghost use Rattle.nm_model.specs.Run.{one_list};
ghost use Rattle.nm_model.specs.Accept.{New, Raised, Known, Gap, Differs, Late, NotRising};
ghost use Rattle.nm_model.specs.Accept.{Contrary, accept_data, accept_null};
ghost use Rattle.nm_model.specs.Join.{join, join_fault};
ghost use Rattle.nm_model.specs.Example.{two_hosts, its_records, same_number, knows, two_messages};
ghost use Rattle.nm_model.specs.Example.{three_messages};

/// Two hosts and one packet: three events are done, the source's at 0, the completion at 5 and the
/// arrival at 15, and then nothing is pending.
pub fn two_hosts_one_packet()
    ensures net { IsNet two_hosts }
    ensures parted { IsParted two_hosts }
    ensures records { (one_list two_hosts 3).records ≡ its_records }
    ensures over { least (one_list two_hosts 3).pending ≡ None }
{}

/// Messages at 10 and 20 are known, and the clock is 20.
pub fn taking_messages()
    ensures gap { accept_null two_messages 3 50 ≡ record { answer = Gap 2; after = two_messages } }
    ensures new { accept_data same_number two_messages 2 (40, 3)
        ≡ record { answer = New; after = three_messages 40 } }
    ensures raised { accept_null (three_messages 40) 3 50
        ≡ record { answer = Raised; after = three_messages 50 } }
    ensures known { accept_null (three_messages 50) 3 50
        ≡ record { answer = Known; after = three_messages 50 } }
    ensures contrary { accept_null (three_messages 50) 1 21
        ≡ record { answer = Contrary 1; after = three_messages 50 } }
    ensures late { accept_data same_number (three_messages 50) 3 (49, 4)
        ≡ record { answer = Late 50; after = three_messages 50 } }
    ensures at_clock { accept_data same_number two_messages 2 (20, 3)
        ≡ record { answer = NotRising; after = two_messages } }
    ensures past { accept_data same_number two_messages 3 (40, 3)
        ≡ record { answer = Gap 2; after = two_messages } }
    ensures again { accept_data same_number two_messages 1 (20, 2)
        ≡ record { answer = Known; after = two_messages } }
    ensures other { accept_data same_number two_messages 1 (20, 3)
        ≡ record { answer = Differs 1; after = two_messages } }
{}

/// Two knowledges of a channel, and their join or why there is none.
pub fn joining_knowledge()
    ensures late { join_fault same_number (knows ((2, 0) ∷ []) 10) (knows ((2, 0) ∷ (5, 0) ∷ []) 5)
        ≡ Some (Late 10) }
    ensures fine { join_fault same_number (knows ((2, 0) ∷ []) 10)
        (knows ((2, 0) ∷ (12, 0) ∷ []) 12)
        ≡ None }
    ensures joined { join (knows ((2, 0) ∷ []) 10) (knows ((2, 0) ∷ (12, 0) ∷ []) 12)
        ≡ knows ((2, 0) ∷ (12, 0) ∷ []) 12 }
    ensures past_clock { join_fault same_number (knows [] 7) (knows ((6, 0) ∷ []) 6)
        ≡ Some (Late 7) }
    ensures past_clock_back { join_fault same_number (knows ((6, 0) ∷ []) 6) (knows [] 7)
        ≡ Some (Late 7) }
    ensures at_clock { join_fault same_number (knows ((6, 0) ∷ []) 6) (knows [] 6) ≡ None }
    ensures unchanged { join (knows ((6, 0) ∷ []) 6) (knows [] 6) ≡ knows ((6, 0) ∷ []) 6 }
    ensures clocks { join (knows [] 3) (knows [] 9) ≡ knows [] 9 }
    ensures differs_first { join_fault same_number (knows ((2, 0) ∷ []) 10)
        (knows ((2, 1) ∷ (5, 0) ∷ []) 5) ≡ Some (Differs 0) }
{}
