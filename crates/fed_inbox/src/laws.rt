// What holds of all inboxes, all lists of requests and all histories of whole requests.
ghost use Rattle.std.specs.Prelude.{◌≡◌, ◌≢◌, ℕ, List, [], ◌∷◌, ◌++◌, Bool, true, Some, None, Result, Ok, ◌≤◌, length, IsUtf8, All, AllPairs, option_map, find, slice_get, bytes_eq, Contains};
ghost use Rattle.std.specs.List.{IsDistinct};
ghost use Rattle.std.specs.FinMap as finite;
ghost use Rattle.serde_json.specs.Data.{Data};
ghost use Rattle.fed_event.specs.Names.{is_one_of};
ghost use Rattle.fed_event.specs.EventId.{event_id_of};
ghost use Rattle.fed_event.specs.Keys.{Checks};
ghost use Rattle.fed_event.specs.Checked.{CheckedEvent};
ghost use Rattle.fed_replies.specs.Kept.{KeptReplies};
ghost use Rattle.fed_inbox.specs.Inbox.{InboxState, new_inbox, log_at, taken_of, taken_edus_of};
ghost use Rattle.fed_inbox.specs.LookUps.{log_of_new, reply_of_new, has_id};
ghost use Rattle.fed_inbox.specs.Taking.{verdict_on, verdicts_on};
ghost use Rattle.fed_inbox.specs.Queues.{for_room, for_place, queues_after};
ghost use Rattle.fed_inbox.specs.Answer.{SendRequest, marked_answer, marked_after, marked_fresh};
ghost use Rattle.base64.specs.GeneralPurpose.{IsBytes};
ghost use Rattle.fed_http.specs.Message.{RequestValue};
ghost use Rattle.fed_http.specs.XMatrixSigning.{SignableJson, header_of, request_of};
ghost use Rattle.fed_http.specs.XMatrixWriting.{header_text};
ghost use Rattle.fed_inbox.specs.Reply.{Answer, accepted};
ghost use Rattle.fed_inbox.specs.WholeRequest.{Heading, IsReadAs, IsSending, IsAnsweredWhole, is_signed_by};
ghost use Rattle.fed_inbox.specs.History.{Point, IsHistory, IsAmong, IsFirst, WasAnsweredWhole, brought};
ghost use Rattle.fed_inbox.specs.declared.refusal.Refusal.{Refusal};
ghost use Rattle.fed_inbox.specs.Receiver.{ReceiverState, IsInboxOf, new_receiver};
ghost use Rattle.fed_inbox.specs.Delivery.{JudgedState, IsTaken};
ghost use Rattle.fed_inbox.specs.Runs.{MarkedRequest, answers, after_all, fresh_all, kept_reply, WasAnswered, Takes, IsForRooms, IsRepeatAnswer};

use fed_event::Keys;

/// A new inbox has a log for each listed server but its own and for no other server, of which nothing is taken, and knows just the rooms
/// that it was given. It has the replies that its store keeps for those servers, and none where the store keeps none.
pub fn what_a_new_inbox_knows()
    ensures logs { (kept : KeptReplies) (own : List ℕ) (servers rooms : List (List ℕ)) (server : List ℕ)
        → log_at server (new_inbox kept own servers rooms).logs ≡ log_of_new kept own servers server }
    ensures rooms { (kept : KeptReplies) (own : List ℕ) (servers rooms : List (List ℕ)) (room : List ℕ)
        → is_one_of (new_inbox kept own servers rooms).rooms room ≡ is_one_of rooms room }
    ensures replies { (kept : KeptReplies) (own : List ℕ) (servers rooms : List (List ℕ)) (origin txn : List ℕ)
        → kept_reply (new_inbox kept own servers rooms) origin txn ≡ reply_of_new kept own servers origin txn }
    ensures none { (own : List ℕ) (servers rooms : List (List ℕ)) (origin txn : List ℕ)
        → kept_reply (new_inbox finite.empty own servers rooms) origin txn ≡ None }
{}

/// The verdict under an id is the one on the first object of that id, and none stands under another id.
pub fn the_first_of_an_id_decides()
    ensures { (checks : Checks) (rooms : List (List ℕ)) (elements : List Data) (id : List ℕ)
        → finite.get (verdicts_on checks rooms elements) id
        ≡ option_map (verdict_on checks rooms) (find (has_id id) elements) }
{}

/// What one more request at the end of a list of requests adds to their answers, to their state and to what they bring for the rooms.
pub fn what_one_more_request_adds()
    ensures answer { (checks : Checks) (inbox : InboxState) (asked : List MarkedRequest) (one : MarkedRequest)
        → answers checks inbox (asked ++ one ∷ []) ≡ answers checks inbox asked ++ marked_answer checks (after_all checks inbox asked) one.0 one.1 ∷ [] }
    ensures state { (checks : Checks) (inbox : InboxState) (asked : List MarkedRequest) (one : MarkedRequest)
        → after_all checks inbox (asked ++ one ∷ []) ≡ marked_after checks (after_all checks inbox asked) one.0 one.1 }
    ensures fresh { (checks : Checks) (inbox : InboxState) (asked : List MarkedRequest) (one : MarkedRequest)
        → fresh_all checks inbox (asked ++ one ∷ []) ≡ fresh_all checks inbox asked ++ marked_fresh checks (after_all checks inbox asked) one.0 one.1 }
{}

/// A kept reply stays, whatever comes after it.
pub fn kept_replies_stay()
    ensures { (checks : Checks) (inbox : InboxState) (asked : List MarkedRequest) (origin txn reply : List ℕ)
        → kept_reply inbox origin txn ≡ Some reply
        → kept_reply (after_all checks inbox asked) origin txn ≡ Some reply }
{}

/// What was taken from an origin only grows at its end.
pub fn taken_grows()
    ensures pdus { (checks : Checks) (inbox : InboxState) (asked : List MarkedRequest) (origin : List ℕ)
        → (more : List (List ℕ)) × (taken_of (after_all checks inbox asked) origin ≡ taken_of inbox origin ++ more) }
    ensures edus { (checks : Checks) (inbox : InboxState) (asked : List MarkedRequest) (origin : List ℕ)
        → (more : List (List ℕ)) × (taken_edus_of (after_all checks inbox asked) origin ≡ taken_edus_of inbox origin ++ more) }
{}

/// A request of one origin changes neither what was taken from another nor its kept replies.
pub fn origins_are_apart()
    ensures pdus { (checks : Checks) (inbox : InboxState) (request : SendRequest) (found : Bool) (other : List ℕ) → other ≢ request.origin
        → taken_of (marked_after checks inbox request found) other ≡ taken_of inbox other }
    ensures edus { (checks : Checks) (inbox : InboxState) (request : SendRequest) (found : Bool) (other : List ℕ) → other ≢ request.origin
        → taken_edus_of (marked_after checks inbox request found) other ≡ taken_edus_of inbox other }
    ensures replies { (checks : Checks) (inbox : InboxState) (request : SendRequest) (found : Bool) (other txn : List ℕ) → other ≢ request.origin
        → kept_reply (marked_after checks inbox request found) other txn ≡ kept_reply inbox other txn }
{}

/// The body of a 200 is the reply that is kept from then on. Where none was kept before, all that the body brings is taken.
pub fn a_200_is_kept()
    ensures kept { (checks : Checks) (inbox : InboxState) (request : SendRequest) (found : Bool)
        → (marked_answer checks inbox request found).status ≡ 200
        → kept_reply (marked_after checks inbox request found) request.origin request.txn ≡ Some (marked_answer checks inbox request found).body }
    ensures taken { (checks : Checks) (inbox : InboxState) (request : SendRequest) (found : Bool)
        → (marked_answer checks inbox request found).status ≡ 200 → kept_reply inbox request.origin request.txn ≡ None
        → Takes checks inbox request found }
{}

/// A reply that is kept after some requests, and was not before them, was the body of a 200 to one of them.
pub fn what_is_kept_was_answered()
    ensures { (checks : Checks) (inbox : InboxState) (asked : List MarkedRequest) (origin txn reply : List ℕ)
        → kept_reply inbox origin txn ≡ None → kept_reply (after_all checks inbox asked) origin txn ≡ Some reply
        → WasAnswered checks inbox asked origin txn (accepted reply) }
{}

/// A transaction that a reply is kept for gets it, or a refusal that is told before a kept reply is looked for, or 500.
pub fn repeats_get_the_kept_reply()
    ensures { (checks : Checks) (inbox : InboxState) (request : SendRequest) (found : Bool) (reply : List ℕ)
        → kept_reply inbox request.origin request.txn ≡ Some reply
        → IsRepeatAnswer reply (marked_answer checks inbox request found) }
{}

/// Nothing but a first 200 changes the state or brings anything for the rooms: no refusal does, and no repeat.
pub fn only_a_first_200_changes()
    ensures refused { (checks : Checks) (inbox : InboxState) (request : SendRequest) (found : Bool)
        → (marked_answer checks inbox request found).status ≢ 200 → marked_after checks inbox request found ≡ inbox }
    ensures refused_brings_nothing { (checks : Checks) (inbox : InboxState) (request : SendRequest) (found : Bool)
        → (marked_answer checks inbox request found).status ≢ 200 → marked_fresh checks inbox request found ≡ [] }
    ensures repeat { (checks : Checks) (inbox : InboxState) (request : SendRequest) (found : Bool) (reply : List ℕ)
        → kept_reply inbox request.origin request.txn ≡ Some reply → marked_after checks inbox request found ≡ inbox }
    ensures repeat_brings_nothing { (checks : Checks) (inbox : InboxState) (request : SendRequest) (found : Bool) (reply : List ℕ)
        → kept_reply inbox request.origin request.txn ≡ Some reply → marked_fresh checks inbox request found ≡ [] }
{}

/// What requests bring for the rooms is checked under the keys, signed by its sender's server, and of a room that is known; of one request
/// no two events have one id.
pub fn what_the_rooms_get()
    ensures all { (checks : Checks) (inbox : InboxState) (asked : List MarkedRequest)
        → All (IsForRooms checks inbox.rooms) (fresh_all checks inbox asked) }
    ensures apart { (checks : Checks) (inbox : InboxState) (request : SendRequest) (found : Bool)
        → AllPairs (λ one other. event_id_of one.event ≢ event_id_of other.event) (marked_fresh checks inbox request found) }
{}

/// A whole request is read in one way, so that where memory is found its answer is the one answer to what it is read as.
pub fn one_reading()
    ensures { (own : List ℕ) (request : RequestValue) (a b : Result Heading Refusal)
        → IsReadAs own request a → IsReadAs own request b → a ≡ b }
{}

/// A request that a server sends to this one, signed as servers sign, is read as its transaction with its header, and under the law of `Keys`
/// its signature checks.
pub fn signed_requests_pass<K: Keys>()
    ensures read { (sent : SignableJson) (key : List ℕ) (sign : List ℕ → List ℕ) (txn : List ℕ) → let h = header_of sent key sign in
        IsSending (request_of sent key sign) txn → IsUtf8 (header_text h) → IsBytes h.signature → length h.signature ≡ 64
        → IsReadAs sent.destination (request_of sent key sign) (Ok (record { txn = txn; header = h })) }
    ensures signed { (keys : K) (sent : SignableJson) → sent.origin ≡ K.own_name keys → let h = header_of sent (K.own_key keys) (K.own_signature keys) in
        is_signed_by (K.checks keys) sent.destination (request_of sent (K.own_key keys) (K.own_signature keys)) h sent.content ≡ true }
{}

/// A request brings at most as many events for the rooms as a transaction may have. The queue of the room at each place gets those for the
/// place, in their order, behind what it holds; where the ids of the rooms are different, these are the events of the room.
pub fn what_the_queues_get()
    ensures few { (checks : Checks) (inbox : InboxState) (request : SendRequest) (found : Bool) → length (marked_fresh checks inbox request found) ≤ 50 }
    ensures queue { (known : List (List ℕ)) (events : List CheckedEvent) (queues : List (List CheckedEvent)) (k : ℕ) (queue : List CheckedEvent)
        → slice_get queues k ≡ Some queue → slice_get (queues_after known events queues) k ≡ Some (queue ++ for_place known k events) }
    ensures count { (known : List (List ℕ)) (events : List CheckedEvent) (queues : List (List CheckedEvent))
        → length (queues_after known events queues) ≡ length queues }
    ensures room { (known : List (List ℕ)) → IsDistinct bytes_eq known → (k : ℕ) (room : List ℕ) → slice_get known k ≡ Some room
        → (events : List CheckedEvent) → for_place known k events ≡ for_room room events }
{}

/// Whole requests that were answered one after another, and then others after these, were all answered one after another; each of them
/// between those before it and those after it. The name of the server and the rooms that it knows stay.
pub fn histories_join()
    ensures join { (checks : Checks) (begin now end : InboxState) (points later : List Point)
        → IsHistory checks begin points now → IsHistory checks now later end → IsHistory checks begin (points ++ later) end }
    ensures among { (checks : Checks) (begin end : InboxState) (points : List Point) (point : Point)
        → IsHistory checks begin points end → Contains points point → IsAmong checks begin points end point }
    ensures own { (checks : Checks) (begin end : InboxState) (points : List Point) → IsHistory checks begin points end → end.own ≡ begin.own }
    ensures rooms { (checks : Checks) (begin end : InboxState) (points : List Point) → IsHistory checks begin points end → end.rooms ≡ begin.rooms }
{}

/// A kept reply stays, whatever whole requests come. Each 200 among them is to a request that is read as a transaction, whose kept reply at
/// the end is its body; and a reply that is kept at the end, and was not at the beginning, was the body of a 200 among them.
pub fn histories_keep_replies()
    ensures stays { (checks : Checks) (begin end : InboxState) (points : List Point) (origin txn reply : List ℕ)
        → IsHistory checks begin points end → kept_reply begin origin txn ≡ Some reply → kept_reply end origin txn ≡ Some reply }
    ensures read { (checks : Checks) (begin end : InboxState) (points : List Point) (point : Point)
        → IsHistory checks begin points end → Contains points point → point.reply.status ≡ 200
        → (heading : Heading) × IsReadAs begin.own point.request (Ok heading) }
    ensures kept { (checks : Checks) (begin end : InboxState) (points : List Point) (point : Point) (heading : Heading)
        → IsHistory checks begin points end → Contains points point → point.reply.status ≡ 200 → IsReadAs begin.own point.request (Ok heading)
        → kept_reply end heading.header.origin heading.txn ≡ Some point.reply.body }
    ensures answered { (checks : Checks) (begin end : InboxState) (points : List Point) (origin txn reply : List ℕ)
        → IsHistory checks begin points end → kept_reply begin origin txn ≡ None → kept_reply end origin txn ≡ Some reply
        → WasAnsweredWhole begin.own points origin txn (accepted reply) }
{}

/// What was taken from an origin only grows at its end, whatever whole requests come.
pub fn histories_only_take()
    ensures pdus { (checks : Checks) (begin end : InboxState) (points : List Point) (origin : List ℕ)
        → IsHistory checks begin points end → (more : List (List ℕ)) × (taken_of end origin ≡ taken_of begin origin ++ more) }
    ensures edus { (checks : Checks) (begin end : InboxState) (points : List Point) (origin : List ℕ)
        → IsHistory checks begin points end → (more : List (List ℕ)) × (taken_edus_of end origin ≡ taken_edus_of begin origin ++ more) }
{}

/// A whole request that is read as a transaction for which a reply is kept gets that reply, or a refusal that is told before a kept reply is
/// looked for, or 500, and changes nothing and brings nothing for the rooms; however many requests came between.
pub fn whole_repeats_get_the_kept_reply()
    ensures answer { (checks : Checks) (old new : InboxState) (request : RequestValue) (answer : Answer) (fresh : List CheckedEvent) (heading : Heading) (reply : List ℕ)
        → IsAnsweredWhole checks old request answer new fresh → IsReadAs old.own request (Ok heading)
        → kept_reply old heading.header.origin heading.txn ≡ Some reply → IsRepeatAnswer reply answer }
    ensures state { (checks : Checks) (old new : InboxState) (request : RequestValue) (answer : Answer) (fresh : List CheckedEvent) (heading : Heading) (reply : List ℕ)
        → IsAnsweredWhole checks old request answer new fresh → IsReadAs old.own request (Ok heading)
        → kept_reply old heading.header.origin heading.txn ≡ Some reply → new ≡ old }
    ensures fresh { (checks : Checks) (old new : InboxState) (request : RequestValue) (answer : Answer) (fresh : List CheckedEvent) (heading : Heading) (reply : List ℕ)
        → IsAnsweredWhole checks old request answer new fresh → IsReadAs old.own request (Ok heading)
        → kept_reply old heading.header.origin heading.txn ≡ Some reply → fresh ≡ [] }
    ensures later { (checks : Checks) (begin end : InboxState) (points : List Point) (point : Point) (heading : Heading) (reply : List ℕ)
        → IsHistory checks begin points end → Contains points point → IsReadAs begin.own point.request (Ok heading)
        → kept_reply begin heading.header.origin heading.txn ≡ Some reply → IsRepeatAnswer reply point.reply }
    ensures later_brings_nothing { (checks : Checks) (begin end : InboxState) (points : List Point) (point : Point) (heading : Heading) (reply : List ℕ)
        → IsHistory checks begin points end → Contains points point → IsReadAs begin.own point.request (Ok heading)
        → kept_reply begin heading.header.origin heading.txn ≡ Some reply → point.fresh ≡ [] }
{}

/// Of whole requests nothing but a first 200 changes the state or brings anything for the rooms, and it takes all that its body brings.
pub fn only_a_first_whole_200_changes()
    ensures refused { (checks : Checks) (old new : InboxState) (request : RequestValue) (answer : Answer) (fresh : List CheckedEvent)
        → IsAnsweredWhole checks old request answer new fresh → answer.status ≢ 200 → new ≡ old }
    ensures refused_brings_nothing { (checks : Checks) (old new : InboxState) (request : RequestValue) (answer : Answer) (fresh : List CheckedEvent)
        → IsAnsweredWhole checks old request answer new fresh → answer.status ≢ 200 → fresh ≡ [] }
    ensures first { (checks : Checks) (old new : InboxState) (request : RequestValue) (answer : Answer) (fresh : List CheckedEvent) (heading : Heading)
        → IsAnsweredWhole checks old request answer new fresh → IsReadAs old.own request (Ok heading) → answer.status ≡ 200
        → kept_reply old heading.header.origin heading.txn ≡ None → IsFirst checks old heading.header.origin request.body answer new fresh }
{}

/// A whole request of one origin changes neither what was taken from another nor its kept replies.
pub fn whole_origins_are_apart()
    ensures pdus { (checks : Checks) (old new : InboxState) (request : RequestValue) (answer : Answer) (fresh : List CheckedEvent) (heading : Heading) (other : List ℕ)
        → IsAnsweredWhole checks old request answer new fresh → IsReadAs old.own request (Ok heading) → other ≢ heading.header.origin
        → taken_of new other ≡ taken_of old other }
    ensures edus { (checks : Checks) (old new : InboxState) (request : RequestValue) (answer : Answer) (fresh : List CheckedEvent) (heading : Heading) (other : List ℕ)
        → IsAnsweredWhole checks old request answer new fresh → IsReadAs old.own request (Ok heading) → other ≢ heading.header.origin
        → taken_edus_of new other ≡ taken_edus_of old other }
    ensures replies { (checks : Checks) (old new : InboxState) (request : RequestValue) (answer : Answer) (fresh : List CheckedEvent) (heading : Heading) (other txn : List ℕ)
        → IsAnsweredWhole checks old request answer new fresh → IsReadAs old.own request (Ok heading) → other ≢ heading.header.origin
        → kept_reply new other txn ≡ kept_reply old other txn }
{}

/// What whole requests bring for the rooms is checked under the keys, signed by its sender's server, and of a room that is known; one request
/// brings at most as many events as a transaction may have, and no two of one id.
pub fn what_histories_bring()
    ensures all { (checks : Checks) (begin end : InboxState) (points : List Point)
        → IsHistory checks begin points end → All (IsForRooms checks begin.rooms) (brought points) }
    ensures few { (checks : Checks) (old new : InboxState) (request : RequestValue) (answer : Answer) (fresh : List CheckedEvent)
        → IsAnsweredWhole checks old request answer new fresh → length fresh ≤ 50 }
    ensures apart { (checks : Checks) (old new : InboxState) (request : RequestValue) (answer : Answer) (fresh : List CheckedEvent)
        → IsAnsweredWhole checks old request answer new fresh → AllPairs (λ one other. event_id_of one.event ≢ event_id_of other.event) fresh }
{}

/// A new receiver is of the same server as a new inbox with its name, list and rooms, and stays so over all that the inbox takes.
pub fn what_a_receiver_serves()
    ensures new { (kept : KeptReplies) (own : List ℕ) (servers rooms : List (List ℕ))
        → IsInboxOf (new_receiver own servers rooms) (new_inbox kept own servers rooms) }
    ensures stays { (receiver : ReceiverState) (old new : InboxState) (judged : JudgedState) (answer : Answer) (fresh : List CheckedEvent)
        → IsInboxOf receiver old → IsTaken old judged answer new fresh → IsInboxOf receiver new }
{}
