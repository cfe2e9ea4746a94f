//! Laws of the words and statuses. A law is a function that does nothing: its `ensures` is the
//! statement.

ghost use Rattle.std.specs.Prelude.{◌≡◌, ℕ, ◌^◌, List, [], ◌∷◌, ◌++◌, codes, decimal, Some};
ghost use Rattle.std.specs.Prelude.{Bool, None, false, option_map, true};
ghost use Rattle.arrayvec.specs.ArrayString.{ArrayString};
ghost use Rattle.nm_topology.specs.declared.fault.Refusal.TheVariants.{Hex};
ghost use Rattle.nm_pcap.specs.declared.form.Form.TheVariants.{Octets, Hexadecimal};
ghost use Rattle.nm_command.specs.Command.{All, Certify, Check, Node, Packets, Path, Rounds, Run};
ghost use Rattle.nm_command.specs.Command.{Script, Series, Show, Text, Trace, Verify, asked_number};
ghost use Rattle.nm_command.specs.Command.{asks_help, command_of};
ghost use Rattle.nm_command.specs.Command.{node_of, run_of};
ghost use Rattle.nm_command.specs.Status.{code_of, line_of};
ghost use Rattle.nm_command.specs.declared.status.Status.TheVariants as status;
ghost use Rattle.nm_command.specs.declared.view.Subject.TheVariants.{Interfaces, Sources};
ghost use Rattle.nm_command.specs.declared.view.View.TheVariants as view;
ghost use Rattle.nm_command.specs.declared.ways.Ways.TheVariants.{Both, Sent, Received};

/// What the words of the program ask for, those with no number. No words are `onehex -`.
#[tactic(auto, unfolding(crate::specs::Command::command_of))]
pub fn words_of_the_program()
    ensures none { command_of [] ≡ Some (Trace Hexadecimal Both (codes "-") None) }
    ensures one { (t : List ℕ) → asks_help t ≡ false
        → command_of (codes "one" ∷ t ∷ []) ≡ Some (Trace Octets Both t None) }
    ensures trace { (t i : List ℕ)
        → (command_of (codes "one" ∷ t ∷ i ∷ []) ≡ Some (Trace Octets Both t (Some i)))
        × (command_of (codes "onehex" ∷ t ∷ i ∷ [])
        ≡ Some (Trace Hexadecimal Both t (Some i)))
        × (command_of (codes "sent" ∷ t ∷ i ∷ []) ≡ Some (Trace Octets Sent t (Some i)))
        × (command_of (codes "received" ∷ t ∷ i ∷ [])
        ≡ Some (Trace Octets Received t (Some i))) }
    ensures files { (t d : List ℕ) (names : List (List ℕ))
        → (command_of (codes "all" ∷ t ∷ d ∷ names) ≡ Some (All t d names))
        × (command_of (codes "verify" ∷ t ∷ d ∷ names) ≡ Some (Verify t d names))
        × (command_of (codes "certify" ∷ t ∷ d ∷ []) ≡ None) }
    ensures script { (t s : List ℕ)
        → command_of (codes "script" ∷ t ∷ s ∷ []) ≡ Some (Script t s) }
    ensures looks { (t i a : List ℕ)
        → (command_of (codes "text" ∷ t ∷ i ∷ []) ≡ Some (Text t i))
        × (command_of (codes "path" ∷ t ∷ i ∷ a ∷ []) ≡ Some (Path t i a)) }
    ensures shown { (t : List ℕ) → asks_help t ≡ false
        → (command_of (codes "check" ∷ t ∷ []) ≡ Some (Check t))
        × (command_of (codes "report" ∷ t ∷ []) ≡ Some (Show t view.Tables))
        × (command_of (codes "dot" ∷ t ∷ []) ≡ Some (Show t view.Graph)) }
    ensures measured { (t : List ℕ)
        → (command_of (codes "report" ∷ t ∷ codes "csv" ∷ []) ≡ Some (Show t view.Values))
        × (command_of (codes "report" ∷ t ∷ codes "delays" ∷ []) ≡ Some (Show t view.Delays))
        × (command_of (codes "report" ∷ t ∷ codes "csv" ∷ codes "delays" ∷ [])
        ≡ Some (Show t view.Rows))
        × (command_of (codes "dot" ∷ t ∷ codes "load" ∷ []) ≡ Some (Show t view.Load)) }
    ensures others { (t i : List ℕ) → (command_of (t ∷ []) ≡ None)
        × (command_of (codes "sum" ∷ t ∷ []) ≡ None)
        × (command_of (codes "check" ∷ t ∷ i ∷ []) ≡ None)
        × (command_of (codes "report" ∷ t ∷ codes "load" ∷ []) ≡ None)
        × (command_of (codes "report" ∷ t ∷ codes "delays" ∷ codes "csv" ∷ []) ≡ None) }
    ensures help { (w : List ℕ) → (command_of (w ∷ codes "--help" ∷ []) ≡ None)
        × (command_of (w ∷ codes "-h" ∷ []) ≡ None) }
{}

/// The words with numbers, and from which number to which they may be.
#[tactic(auto, unfolding(crate::specs::Command::command_of))]
pub fn numbers_of_words()
    ensures rounds { (t n : List ℕ) → command_of (codes "rounds" ∷ t ∷ n ∷ [])
        ≡ option_map (λ n. Rounds t n) (asked_number 1 (10 ^ 9) n) }
    ensures series { (t n : List ℕ) → (command_of (codes "series" ∷ t ∷ n ∷ [])
        ≡ option_map (λ n. Series t n Interfaces) (asked_number 1 (10 ^ 15) n))
        × (command_of (codes "series" ∷ t ∷ n ∷ codes "flows" ∷ [])
        ≡ option_map (λ n. Series t n Sources) (asked_number 1 (10 ^ 15) n)) }
    ensures packets { (t n : List ℕ) → command_of (codes "packets" ∷ t ∷ n ∷ [])
        ≡ option_map (λ n. Packets t n) (asked_number 0 1_023 n) }
    ensures run { (t d w r : List ℕ) → command_of (codes "run" ∷ t ∷ d ∷ w ∷ r ∷ [])
        ≡ run_of t d (asked_number 1 64 w) (asked_number 1 2 r) false }
    ensures node { (t d p r a : List ℕ) → command_of (codes "node" ∷ t ∷ d ∷ p ∷ r ∷ a ∷ [])
        ≡ node_of t d (asked_number 0 63 p) (asked_number 0 1 r) a false }
    ensures keep { (t d n r a : List ℕ)
        → (command_of (codes "run" ∷ t ∷ d ∷ n ∷ r ∷ codes "keep" ∷ [])
        ≡ run_of t d (asked_number 1 64 n) (asked_number 1 2 r) true)
        × (command_of (codes "node" ∷ t ∷ d ∷ n ∷ r ∷ a ∷ codes "keep" ∷ [])
        ≡ node_of t d (asked_number 0 63 n) (asked_number 0 1 r) a true) }
    ensures both { (t d a : List ℕ) (keeps : Bool)
        → (run_of t d (Some 3) (Some 2) keeps ≡ Some (Run t d 3 2 keeps))
        × (node_of t d (Some 3) (Some 1) a keeps ≡ Some (Node t d 3 1 a keeps)) }
    ensures certify { (t w d : List ℕ) (more : List (List ℕ))
        → command_of (codes "certify" ∷ t ∷ w ∷ d ∷ more)
        ≡ option_map (λ n. Certify t n (d ∷ more)) (asked_number 1 64 w) }
{}

/// The exit status and the line of each ending.
pub fn statuses_and_lines()
    ensures done { (code_of status.Done ≡ 0) × (line_of status.Done ≡ []) }
    ensures usage { (code_of status.Usage ≡ 2)
        × (line_of status.Usage ≡ codes "nullsim: usage\n")
        × (code_of status.NoInterface ≡ 2)
        × (line_of status.NoInterface ≡ codes "nullsim: no interface\n") }
    ensures numbered { (n : ℕ) → (code_of (status.ScriptLine n) ≡ 2)
        × (line_of (status.ScriptLine n)
        ≡ codes "nullsim: script line " ++ decimal n ++ codes "\n")
        × (code_of (status.Step n) ≡ 2)
        × (line_of (status.Step n) ≡ codes "nullsim: step " ++ decimal n ++ codes "\n")
        × (code_of (status.Rows n) ≡ 2)
        × (line_of (status.Rows n) ≡ codes "nullsim: rows " ++ decimal n ++ codes "\n") }
    ensures topology { (code_of (status.Topology Hex) ≡ 3)
        × (line_of (status.Topology Hex)
        ≡ codes "nullsim: topology " ++ decimal 13 ++ codes "\n") }
    ensures failed { (code_of status.File ≡ 4) × (line_of status.File ≡ codes "nullsim: file\n")
        × (code_of status.Memory ≡ 5) × (line_of status.Memory ≡ codes "nullsim: memory\n") }
    ensures uncertified { (n : ℕ) → (code_of (status.NotCertified n) ≡ 6)
        × (line_of (status.NotCertified n)
        ≡ codes "nullsim: not certified " ++ decimal n ++ codes "\n")
        × (code_of status.Stalled ≡ 7)
        × (line_of status.Stalled ≡ codes "nullsim: stalled\n") }
    ensures differs { (name : ArrayString) (n : ℕ) → (code_of (status.Differs name n) ≡ 8)
        × (line_of (status.Differs name n)
        ≡ codes "nullsim: differs " ++ name.bytes ++ codes " " ++ decimal n ++ codes "\n") }
{}

/// A number is in decimal, without leading zeros, and within its range.
pub fn numbers_in_words()
    ensures { (asked_number 1 64 (codes "0") ≡ None)
        × (asked_number 1 64 (codes "1") ≡ Some 1)
        × (asked_number 1 64 (codes "64") ≡ Some 64)
        × (asked_number 1 64 (codes "65") ≡ None)
        × (asked_number 1 64 (codes "07") ≡ None) }
{}
