//! What the server means: records, sessions and many clients over one history of arrivals, as definitions (in
//! `specs/`), and laws about them, each the contract of a function with an empty body. The code of the crates above is
//! proved equal to the definitions, so that the laws hold of it. `docs/DEFINITIONS.md` says in which order to read.
#![tactic(auto)]

ghost use Rattle.std.specs.Prelude.{◌≡◌, ◌≢◌, ◌<◌, ◌≤◌, ◌+◌, if◌then◌else◌, None, length, ◌↔◌, ◌⊎◌, ◌++◌, ℕ};
ghost use Rattle.std.specs.Prelude.{Bool, true, false, List, [], ◌∷◌, map, option_map, slice_get, Some, Ok, Err, All};
ghost use Rattle.std.specs.List.{list_any, concat};
ghost use Rattle.protocol.specs.declared.record.RecordFault.{RecordFault};
ghost use Rattle.protocol.specs.declared.reason.Reason.{Reason};
ghost use Rattle.protocol.specs.Reason.{number_of as reason_number, name_of as reason_name, reason_by};
ghost use Rattle.protocol.specs.Time.{days_before, is_leap, days_of_year_before};
ghost use Rattle.protocol.specs.Record.{Facts, header_of};
ghost use Rattle.protocol.specs.Reading.{Not, HasFacts, IsTrueOf, IsFirstFault};
ghost use Rattle.protocol.specs.Made.{Fields, layout_of, made, IsInRange, IsAmbiguous, Spells};
ghost use Rattle.protocol.specs.Packet.{IsPacket, IsSomePacket, number_of, digits, packet};
ghost use Rattle.protocol.specs.Streams.{end_mark, IsPacketStream, BeginsStream, StreamRead, stream_from, stream_of};
ghost use Rattle.protocol.specs.Streams.{IsFeed, FeedRead, feed_from, feed_of};
ghost use Rattle.protocol.specs.Streams.StreamRead.{Going, Ended, NoStream};
ghost use Rattle.protocol.specs.Access.{Token, allows, IsAllowed, HasMask};
ghost use Rattle.protocol.specs.Lines.{Line, is_line_end, lines_of, rest_of, capped, cut_from, open_after};
ghost use Rattle.protocol.specs.Lines.Line.{Text};
ghost use Rattle.protocol.specs.Catalog.{Station, Config, Entry, View, stations_of, is_same_view};
ghost use Rattle.protocol.specs.Catalog.{is_same_but_for_access};
ghost use Rattle.protocol.specs.Pattern.{Pattern, pattern_of, passes, IsPattern, Passes};
ghost use Rattle.protocol.specs.Command.{Command, words, uppercased, command_of_words, command_of, HasWords, AsksFor};
ghost use Rattle.protocol.specs.Command.{Asks};
ghost use Rattle.protocol.specs.History.{Arrival, Action, Request, number_at, first_wanted, next, is_over_by};
ghost use Rattle.protocol.specs.Choosing.{IsStart, HasHeld, IsNext, IsWanted, IsOver};
ghost use Rattle.protocol.specs.Client.{Client, reads, left_unread, obey, read_byte, read_on};
ghost use Rattle.protocol.specs.World.{Event, World, Connection, accepted, at, config_after, world_from, world_after};
ghost use Rattle.protocol.specs.World.{handed_from, handed};
ghost use Rattle.protocol.specs.Alone.{OwnEvent, alone, own_view, seen, handed_to, restricted};
ghost use Rattle.protocol.specs.Alone.{all_restricted, reloads_accepted, KeepsVisible};
ghost use Rattle.protocol.specs.Offers.{arrivals, client_after, offers, bytes_since, handed_since, client_at};
ghost use Rattle.protocol.specs.Offers.{offers_to, handed_to_since};
ghost use Rattle.protocol.specs.Transfers.{KeepsUp, MissesAreOverruns, HandsItsChoices, MissesNothing};

pub mod limits;
pub mod reason;
pub mod record;

// ---- Records

/// What is read of a record are its facts, by the words of the standard.
pub fn facts_of_record()
    ensures { (r : List ℕ) (x : Facts) → (header_of r ≡ Ok x) ↔ HasFacts r x }
{}

/// What is read of a record that has no facts is the first fault that it has.
pub fn fault_of_record()
    ensures { (r : List ℕ) (f : RecordFault) → (header_of r ≡ Err f) ↔ IsFirstFault r f }
{}

/// Each record has facts or a fault, and one that has facts has no fault.
pub fn facts_or_fault()
    ensures either { (r : List ℕ) → ((x : Facts) × HasFacts r x) ⊎ ((f : RecordFault) × IsFirstFault r f) }
    ensures not_both { (r : List ℕ) (x : Facts) (f : RecordFault) → HasFacts r x → Not (IsTrueOf r f) }
{}

/// A record is made of fields exactly where they are in range and their layout is read as what they say.
pub fn records_made()
    ensures { (f : Fields) (r : List ℕ) → (made f ≡ Some r) ↔ Spells f r }
{}

/// Fields in range are made into their layout, but for three days of one year in little order, for which no record is
/// made.
pub fn fields_spelled()
    ensures spelled { (f : Fields) → IsInRange f → Not (IsAmbiguous f) → made f ≡ Some (layout_of f) }
    ensures not_spelled { (f : Fields) → IsAmbiguous f → made f ≡ None }
{}

/// The days of a year are those of its twelve months, and a year begins so many days after the year before.
pub fn calendar()
    ensures year { (y : ℕ) → 1 ≤ y → days_before (y + 1) ≡ days_before y + (if is_leap y then 366 else 365) }
    ensures months { (y : ℕ) → days_of_year_before y 13 ≡ (if is_leap y then 366 else 365) }
{}

/// No two reasons to refuse something have the same number, and none the same name; each is found among all of them by
/// its number.
pub fn reasons_told()
    ensures numbers { (r s : Reason) → reason_number r ≡ reason_number s → r ≡ s }
    ensures names { (r s : Reason) → reason_name r ≡ reason_name s → r ≡ s }
    ensures found { (r : Reason) → reason_by (reason_number r) ≡ Some r }
{}

// ---- What stands on the wire

/// The six digits of a number below 2^24 are read as it, and six digits in either case are those of the number that
/// they are read as.
pub fn numbers_spelled()
    ensures read { (n : ℕ) → n < 0x1000000 → number_of (digits n) ≡ Some n }
    ensures written { (ds : List ℕ) (n : ℕ) → length ds ≡ 6 → number_of ds ≡ Some n →
        (digits n ≡ uppercased ds) × (n < 0x1000000) }
{}

/// A number and a record are framed as a packet, and a packet is one of no other number and record.
pub fn packets_framed()
    ensures framed { (n : ℕ) (contents : List ℕ) → n < 0x1000000 → length contents ≡ 512 →
        IsPacket n contents (packet n contents) }
    ensures one_reading { (n n' : ℕ) (contents contents' bytes : List ℕ) →
        IsPacket n contents bytes → IsPacket n' contents' bytes → (n ≡ n') × (contents ≡ contents') }
{}

/// Packets one after the other are a stream, with an end or without. Bytes are a stream, or a feed, in one way only.
pub fn streams_read()
    ensures whole { (packets : List (List ℕ)) (ended : Bool) → All IsSomePacket packets →
        IsPacketStream (concat packets ++ end_mark ended) packets ended [] }
    ensures one_stream { (bytes : List ℕ) (ps ps' : List (List ℕ)) (ended ended' : Bool) (rest rest' : List ℕ) →
        IsPacketStream bytes ps ended rest → IsPacketStream bytes ps' ended' rest' →
        (ps ≡ ps') × (ended ≡ ended') × (rest ≡ rest') }
    ensures one_feed { (bytes : List ℕ) (rs rs' : List (List ℕ)) (rest rest' : List ℕ) →
        IsFeed bytes rs rest → IsFeed bytes rs' rest' → (rs ≡ rs') × (rest ≡ rest') }
{}

/// Reading bytes one by one decides the stream of packets that they are: which packets, whether it is ended, and what
/// is left over; and where no stream begins with them. It is the same in whatever pieces they come.
pub fn streams_decided()
    ensures going { (bytes : List ℕ) (packets : List (List ℕ)) (rest : List ℕ) →
        (stream_of bytes ≡ Going packets rest) ↔ IsPacketStream bytes packets false rest }
    ensures ended { (bytes : List ℕ) (packets : List (List ℕ)) →
        (stream_of bytes ≡ Ended packets) ↔ IsPacketStream bytes packets true [] }
    ensures no_stream { (bytes : List ℕ) → (stream_of bytes ≡ NoStream) ↔ Not (BeginsStream bytes) }
    ensures pieces { (r : StreamRead) (bytes more : List ℕ) →
        stream_from r (bytes ++ more) ≡ stream_from (stream_from r bytes) more }
{}

/// Reading bytes one by one decides which records of 512 bytes they are, and what is left over, in whatever pieces they
/// come.
pub fn feeds_decided()
    ensures feed { (bytes : List ℕ) (f : FeedRead) → (feed_of bytes ≡ f) ↔ IsFeed bytes f.records f.rest }
    ensures pieces { (f : FeedRead) (bytes more : List ℕ) →
        feed_from f (bytes ++ more) ≡ feed_from (feed_from f bytes) more }
{}

// ---- Who may see what, and what is asked

/// A list allows an address where one of its tokens has the same bits as the address wherever its mask is one.
pub fn allowed_addresses()
    ensures { (tokens : List Token) (a : ℕ) → All HasMask tokens → (allows tokens a ≡ true) ↔ IsAllowed tokens a }
{}

/// Two configurations are the same but for who may use which station where their titles, their limits of connections
/// and their stations are equal; a record is accepted by the one as by the other. Two views are the same where they are
/// equal.
pub fn configurations_compared()
    ensures but_for_access { (config new : Config) → (is_same_but_for_access config new ≡ true) ↔
        ((config.title ≡ new.title) × (config.max_connections ≡ new.max_connections)
        × (stations_of config ≡ stations_of new)) }
    ensures accepted { (config new : Config) (r : List ℕ) → is_same_but_for_access config new ≡ true →
        accepted new r ≡ accepted config r }
    ensures views { (v w : View) → (is_same_view v w ≡ true) ↔ (v ≡ w) }
{}

/// A text is read as the pattern that it is by the table of patterns, and a record passes by the words.
pub fn patterns_read()
    ensures pattern { (text : List ℕ) (p : Pattern) → (pattern_of text ≡ Some p) ↔ IsPattern text p }
    ensures passing { (ps : List Pattern) (x : Facts) → (passes ps x ≡ true) ↔ Passes ps x }
{}

/// Taking bytes one by one cuts them into their lines, each of more than 256 bytes told once as too long, and the open
/// line is the rest.
pub fn lines_cut()
    ensures lines { (bytes : List ℕ) → cut_from (Text []) bytes ≡ map capped (lines_of bytes) }
    ensures rest { (bytes : List ℕ) → open_after (Text []) bytes ≡ capped (rest_of bytes) }
    ensures lines_of_pieces { (line : Line) (bytes more : List ℕ) →
        cut_from line (bytes ++ more) ≡ cut_from line bytes ++ cut_from (open_after line bytes) more }
    ensures rest_of_pieces { (line : Line) (bytes more : List ℕ) →
        open_after line (bytes ++ more) ≡ open_after (open_after line bytes) more }
{}

/// The words of a line are what stands between its spaces, and they ask for the command of their row in the table of
/// commands. Words that have no row, and a line of more than 256 bytes, are Bad.
pub fn commands_asked()
    ensures line { (line : Line) (c : Command) → (command_of line ≡ c) ↔ Asks line c }
    ensures words { (text : List ℕ) (ws : List (List ℕ)) → (words text ≡ ws) ↔ HasWords text ws }
    ensures table { (ws : List (List ℕ)) (c : Command) → (command_of_words ws ≡ c) ↔ AsksFor ws c }
{}

// ---- What a transfer takes

/// A request begins where the words say, and the number of a held record is never the one that the next arrival is to
/// have.
pub fn requests_begin()
    ensures start { (s : Station) (h : List Arrival) (action : Action) (p : ℕ) → s.capacity < 0x1000000 →
        (first_wanted s h action ≡ p) ↔ IsStart s h action p }
    ensures next_number { (s : Station) (h : List Arrival) (p : ℕ) → s.capacity < 0x1000000 → HasHeld s h p →
        number_at s h p ≢ number_at s h (length h) }
{}

/// What comes next is the least position that is held and wanted, and nothing comes where there is none.
pub fn records_chosen()
    ensures next { (h : List Arrival) (requests : List Request) (q p : ℕ) →
        (next h requests q ≡ Some p) ↔ IsNext h requests q p }
    ensures none { (h : List Arrival) (requests : List Request) (q : ℕ) →
        (next h requests q ≡ None) ↔ ((k : ℕ) → q ≤ k → Not (IsWanted requests h k)) }
    ensures over { (s : Station) (h : List Arrival) (action : Action)
        → (is_over_by s h action ≡ true) ↔ IsOver s h action }
{}

// ---- One client, and all of them

/// While a client may read, what stands before a line end goes to its open line, which is obeyed. What has no line end
/// is its open line from then on. While it may not read, the bytes stay, or are dropped in its end.
pub fn lines_obeyed()
    ensures line { (v : View) (h : List Arrival) (piece : List ℕ) (end : ℕ) (bytes : List ℕ) (c : Client) →
        reads c.state c.waiting ≡ true → list_any is_line_end piece ≡ false → is_line_end end ≡ true →
        read_on v h (piece ++ end ∷ bytes) c
        ≡ read_on v h bytes (obey v h (open_after c.open_line piece) (record c { open_line = Text [] })) }
    ensures rest { (v : View) (h : List Arrival) (piece : List ℕ) (c : Client) →
        reads c.state c.waiting ≡ true → list_any is_line_end piece ≡ false →
        read_on v h piece c ≡ record c { open_line = open_after c.open_line piece; unread = [] } }
    ensures unread { (v : View) (h : List Arrival) (bytes : List ℕ) (c : Client) →
        reads c.state c.waiting ≡ false → read_on v h bytes c ≡ record c { unread = left_unread c.state bytes } }
{}

/// What a client had unread before doesn't matter to what it reads on, and where it may read it goes on byte by byte.
pub fn unread_replaced()
    ensures before { (v : View) (h : List Arrival) (unread bytes : List ℕ) (c : Client) →
        read_on v h bytes (record c { unread = unread }) ≡ read_on v h bytes c }
    ensures step { (v : View) (h : List Arrival) (b : ℕ) (bytes : List ℕ) (c : Client) → reads c.state c.waiting ≡ true
        →
        read_on v h bytes (read_byte v h b (record c { unread = bytes })) ≡ read_on v h (b ∷ bytes) c }
{}

/// What is done to the connection with a number is done to it alone, and to none past the end. One that is pushed has
/// the next number, and the others keep theirs.
pub fn connections_numbered()
    ensures here { (cs : List Connection) (k : ℕ) (f : Connection → Connection) →
        slice_get (at cs k f) k ≡ option_map f (slice_get cs k) }
    ensures others { (cs : List Connection) (j k : ℕ) (f : Connection → Connection) → j ≢ k →
        slice_get (at cs j f) k ≡ slice_get cs k }
    ensures count { (cs : List Connection) (k : ℕ) (f : Connection → Connection) → length (at cs k f) ≡ length cs }
    ensures past_the_end { (cs : List Connection) (k : ℕ) (f : Connection → Connection) → length cs ≤ k
        → at cs k f ≡ cs }
    ensures nobody { (cs : List Connection) (k : ℕ) → length cs ≤ k → slice_get cs k ≡ None }
    ensures pushed { (cs : List Connection) (c : Connection) → slice_get (cs ++ c ∷ []) (length cs) ≡ Some c }
    ensures before_pushed { (cs : List Connection) (c : Connection) (k : ℕ) → length cs ≢ k →
        slice_get (cs ++ c ∷ []) k ≡ slice_get cs k }
    ensures each { (cs : List Connection) (k : ℕ) (f : Connection → Connection) →
        slice_get (map f cs) k ≡ option_map f (slice_get cs k) }
    ensures each_count { (cs : List Connection) (f : Connection → Connection) → length (map f cs) ≡ length cs }
{}

/// Events one after the other are those of a first list and then those of the rest, under the configuration in force by
/// then.
pub fn events_in_turn()
    ensures config { (config : Config) (events more : List Event) →
        config_after config (events ++ more) ≡ config_after (config_after config events) more }
    ensures world { (config : Config) (w : World) (events more : List Event) →
        world_from config w (events ++ more)
        ≡ world_from (config_after config events) (world_from config w events) more }
    ensures handed { (config : Config) (w : World) (events more : List Event) →
        handed_from config w (events ++ more)
        ≡ handed_from config w events ++ handed_from (config_after config events) (world_from config w events) more }
{}

// ---- A client sees nothing of what it may not see

/// The k-th client is handed what a client alone would be handed, by its own events and the arrivals at stations that
/// it saw at its Open. A new configuration is an event of its own only where it is cut by it.
pub fn isolation()
    ensures { (config : Config) (events : List Event) (k : ℕ) →
        handed_to k (handed config events) ≡ alone (own_view config events k) (seen config events k) }
{}

/// What a client alone is handed grows with further events by what they hand to it, and what it was handed stays.
pub fn isolation_goes_on()
    ensures { (config : Config) (events more : List Event) (k : ℕ) →
        alone (own_view config (events ++ more) k) (seen config (events ++ more) k)
        ≡ alone (own_view config events k) (seen config events k)
        ++ handed_to k (handed_from (config_after config events) (world_after config events) more) }
{}

/// Two clients with the same view at their Open, the same events of their own and the same arrivals at stations that
/// they see are handed the same, at whatever servers and among whatever other clients.
pub fn alike()
    ensures { (config config' : Config) (events events' : List Event) (k k' : ℕ) →
        own_view config events k ≡ own_view config' events' k' → seen config events k ≡ seen config' events' k' →
        handed_to k (handed config events) ≡ handed_to k' (handed config' events') }
{}

/// At two servers where a client has the same view at its Open, and which accept the same new configurations, the same
/// events hand it the same.
pub fn same_view()
    ensures { (config config' : Config) (events : List Event) (k : ℕ) →
        own_view config events k ≡ own_view config' events k →
        reloads_accepted config events ≡ reloads_accepted config' events →
        handed_to k (handed config events) ≡ handed_to k (handed config' events) }
{}

/// Stations that are hidden from a client's address under each configuration in force can be taken away, from all of
/// these, and the same events hand it the same, where the same new configurations are accepted.
pub fn hidden_stations()
    ensures { (config : Config) (keep : Entry → Bool) (events : List Event) (k : ℕ) →
        KeepsVisible keep config events k →
        reloads_accepted (restricted keep config) (all_restricted keep events) ≡ reloads_accepted config events →
        handed_to k (handed (restricted keep config) (all_restricted keep events))
        ≡ handed_to k (handed config events) }
{}

// ---- A reader that keeps up misses nothing

/// A transfer misses a record that is wanted only where it was overrun: at least as many later arrivals of its station
/// as the station's capacity had come when an offer passed over it.
pub fn misses_are_overruns()
    ensures of_one_alone { (v : View) (events : List OwnEvent) →
        MissesAreOverruns (arrivals events) (client_after v events) (offers v events) }
    ensures of_each_client { (config : Config) (events : List Event) (k : ℕ) →
        MissesAreOverruns (world_after config events).history (client_at config events k) (offers_to config events k) }
{}

/// What a transfer chooses is wanted, each once and in order of arrival, and its packets are what is handed.
pub fn hands_its_choices()
    ensures of_one_alone { (v : View) (events : List OwnEvent) →
        HandsItsChoices (arrivals events) (client_after v events) (offers v events) (handed_since v events) }
    ensures of_each_client { (config : Config) (events : List Event) (k : ℕ) →
        HandsItsChoices (world_after config events).history (client_at config events k) (offers_to config events k)
        (handed_to_since config events k) }
    ensures by_what_it_sees { (config : Config) (events : List Event) (k : ℕ) →
        let v = own_view config events k in
        let own = seen config events k in
        HandsItsChoices (arrivals own) (client_after v own) (offers v own)
        (bytes_since v own (handed_to k (handed config events))) }
{}

/// A transfer that at each of its offers holds all that may still be chosen and is wanted misses nothing.
pub fn keeps_up()
    ensures of_one_alone { (v : View) (events : List OwnEvent) → KeepsUp (offers v events) →
        MissesNothing (arrivals events) (client_after v events) (offers v events) (handed_since v events) }
    ensures of_each_client { (config : Config) (events : List Event) (k : ℕ) → KeepsUp (offers_to config events k) →
        MissesNothing (world_after config events).history (client_at config events k) (offers_to config events k)
        (handed_to_since config events k) }
    ensures by_what_it_sees { (config : Config) (events : List Event) (k : ℕ) →
        let v = own_view config events k in
        let own = seen config events k in
        KeepsUp (offers v own) →
        MissesNothing (arrivals own) (client_after v own) (offers v own)
        (bytes_since v own (handed_to k (handed config events))) }
{}
