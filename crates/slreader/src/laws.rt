//! Laws over the dialogue of a reader: public functions with empty bodies, whose contracts are the laws.
ghost use Rattle.std.specs.Prelude.{◌≡◌, ◌≢◌, ◌⊎◌, ◌↔◌, ℕ, Bool, true, false, List, [], ◌∷◌, ◌++◌, take};
ghost use Rattle.std.specs.Option.{option_to_list};
ghost use Rattle.protocol.specs.Reading.{Not};
ghost use Rattle.slreader.specs.declared.fault.ReaderFault.TheVariants.{AllRefused, BadReply, NotAPacket};
ghost use Rattle.slreader.specs.Wants.{PlanValue, is_plan};
ghost use Rattle.slreader.specs.Dialogue.{ReaderValue, asked_of, begun, given_from, read_first, read_on, reader_of};
ghost use Rattle.slreader.specs.Dialogue.Stage.{Failed};
ghost use Rattle.slreader.specs.GoingOn.{plan_on};
ghost use Rattle.slreader.specs.Lasts.{AreApart, lasts_of, tally_after};
ghost use Rattle.slreader.specs.Tallies.{TallyValue};
ghost use Rattle.slreader.specs.Wants.{WantValue};
ghost use Rattle.slreader.specs.Parts.{Part, bytes_of, given_of, IsDialogue, BeginsDialogue, HasNegotiated};
ghost use Rattle.slreader.specs.Parts.{IsNegotiation, asked_by};

/// In whatever pieces bytes come, a reader is afterwards where all of them lead, and was given what all of them give.
pub fn dialogue_in_pieces()
    ensures reader { (r : ReaderValue) (bytes more : List ℕ) →
        read_on r (bytes ++ more) ≡ read_on (read_on r bytes) more }
    ensures given { (r : ReaderValue) (bytes more : List ℕ) →
        given_from r (bytes ++ more) ≡ given_from r bytes ++ given_from (read_on r bytes) more }
{}

/// The bytes that are read up to the first thing that is given lead where the call leaves the reader, and give that
/// alone.
pub fn first_of_a_piece()
    ensures reader { (r : ReaderValue) (piece : List ℕ) →
        (read_first r piece).reader ≡ read_on r (take (read_first r piece).used piece) }
    ensures given { (r : ReaderValue) (piece : List ℕ) →
        given_from r (take (read_first r piece).used piece) ≡ option_to_list (read_first r piece).given }
{}

/// Reading bytes one by one decides whether a server may send them to a reader with the plan. What is given of a
/// dialogue is what its parts give, each by its last byte. A reply is bad (52) and something is not a packet (10)
/// exactly if no dialogue begins with the bytes: the one before all wants are answered, the other after some want was
/// accepted. All is refused (51) exactly if the server refused every want. Once all wants are answered, HELLO and the
/// commands of each want were asked, up to the one that was answered ERROR, and the last command if some want was
/// accepted; nothing is asked after that.
pub fn dialogue_decided()
    ensures given { (plan : PlanValue) (parts : List Part) → is_plan plan ≡ true → IsDialogue plan parts →
        given_from (begun plan) (bytes_of parts) ≡ given_of parts }
    ensures given_so_far { (plan : PlanValue) (before after : List Part) (part : Part) (front more : List ℕ) →
        is_plan plan ≡ true → IsDialogue plan (before ++ part ∷ after) → part.bytes ≡ front ++ more → more ≢ [] →
        given_from (begun plan) (bytes_of before ++ front) ≡ given_of before }
    ensures no_dialogue { (plan : PlanValue) (bytes : List ℕ) → is_plan plan ≡ true →
        (((reader_of plan bytes).stage ≡ Failed BadReply) ⊎ ((reader_of plan bytes).stage ≡ Failed NotAPacket))
        ↔ Not (BeginsDialogue plan bytes) }
    ensures bad_reply { (plan : PlanValue) (bytes : List ℕ) → is_plan plan ≡ true →
        ((reader_of plan bytes).stage ≡ Failed BadReply)
        ↔ (Not (BeginsDialogue plan bytes) × Not (HasNegotiated plan true bytes)) }
    ensures not_a_packet { (plan : PlanValue) (bytes : List ℕ) → is_plan plan ≡ true →
        ((reader_of plan bytes).stage ≡ Failed NotAPacket)
        ↔ (Not (BeginsDialogue plan bytes) × HasNegotiated plan true bytes) }
    ensures asked { (plan : PlanValue) (is_some_accepted : Bool) (parts : List Part) (more : List ℕ) →
        is_plan plan ≡ true → (n : IsNegotiation plan is_some_accepted parts) →
        asked_of plan (bytes_of parts ++ more) ≡ asked_by plan n.verdicts }
    ensures all_refused { (plan : PlanValue) (bytes : List ℕ) → is_plan plan ≡ true →
        ((reader_of plan bytes).stage ≡ Failed AllRefused) ↔ HasNegotiated plan false bytes }
{}

/// A reader that begins with the last packets that another one counted asks what that one asks when it goes on after a
/// break, if each want is of a station of its own. This holds of a want that asks for a number, too.
pub fn state_goes_on()
    ensures { (t : TallyValue) (wants : List WantValue) → AreApart wants →
        plan_on (tally_after (lasts_of t wants) wants) wants ≡ plan_on t wants }
{}
