//! The laws of the protocol, each the contract of a function without a body: what holds for every list of atomic steps
//! of any number of actors, in any interleaving and wherever any actor stops forever, and which changes of the parties
//! keep it.

ghost use Rattle.std.specs.Prelude.{◌≡◌, ◌≢◌, ◌<◌, ◌≤◌, ◌+◌, ◌++◌, ◌∷◌, [], ℕ, List, None, Some, false, length, slice_get, slice_index, slice_index_or, slice_set, take, true};
ghost use Rattle.geom.specs.declared.plan.How.{How};
ghost use Rattle.geom.specs.declared.plan.RingPlan.{RingPlan};
ghost use Rattle.geom.specs.declared.plan.Side.{Side};
ghost use Rattle.geom.specs.declared.plan.Side.TheVariants.{Put, Take};
ghost use Rattle.geom.specs.Fit.{AllFitAny};
ghost use Rattle.ringcore_laws.specs.declared.protocol.Reply.TheVariants.{Busy, Contended, NoRoom, NotYet};
ghost use Rattle.ringcore_laws.specs.declared.protocol.Step.TheVariants.{Look, Reserve, SettlePut, SettleTake};
ghost use Rattle.ringcore_laws.specs.HeadTailRule.{HeadTailRule};
ghost use Rattle.ringcore_laws.specs.Refusals.{HadNoRoom, HasEarlier, HasMoved, IsTaken};
ghost use Rattle.ringcore_laws.specs.declared.contents.Item.{Item};
ghost use Rattle.ringcore_laws.specs.declared.protocol.Step.{Step};
ghost use Rattle.ringcore_laws.specs.declared.party.Party.{Party};
ghost use Rattle.ringcore_laws.specs.Party.{newcomer, joined};
ghost use Rattle.ringcore_laws.specs.declared.protocol.Span.{Span};
ghost use Rattle.ringcore_laws.specs.Moves.{IsReservable, Owns, reserved_by, settled_by};
ghost use Rattle.ringcore_laws.specs.RingSide.{side_of};
ghost use Rattle.ringcore_laws.specs.Sound.{Sound, queue};
ghost use Rattle.ringcore_laws.specs.History.{Actor, Event, IsRun, StaysSound, after, after_all, opening, parties_of, reply_to, tags};
ghost use Rattle.ringcore_laws.specs.Place.{all_places};
ghost use Rattle.ringcore_laws.specs.Runs.{IsPlan, OneSpanEach, history_of, is_done, is_grant, steps_of};

/// Every list of steps is sound: before the first event and after each, no slot and no buffer has two holders, no two
/// actors disagree about the item at a position, the items dequeued from each ring are a prefix of those published
/// there, and each buffer of the pool has exactly one place. Each reply is the one to its step, and a span is granted
/// only to an actor that has none open.
pub fn every_list_of_steps_is_sound()
    ensures sound { (plans : List RingPlan) (actors : ℕ) (gifts : List ℕ) (steps : List (ℕ × Step))
        → IsPlan plans actors gifts → let start = opening actors gifts in
        StaysSound plans (length gifts) start (history_of plans (length gifts) start steps) }
    ensures replies { (plans : List RingPlan) (actors : ℕ) (gifts : List ℕ) (steps : List (ℕ × Step))
        → let start = opening actors gifts in
        IsRun plans (length gifts) start (history_of plans (length gifts) start steps) }
    ensures one_span { (plans : List RingPlan) (actors : ℕ) (gifts : List ℕ) (steps : List (ℕ × Step))
        → let start = opening actors gifts in
        OneSpanEach start (history_of plans (length gifts) start steps) }
{}

/// After every list of steps each buffer of the pool has exactly one place: queued on one ring, or with one actor, held
/// or cached. Any other number has none.
pub fn every_buffer_has_one_place()
    ensures one { (plans : List RingPlan) (actors : ℕ) (gifts : List ℕ) (steps : List (ℕ × Step)) (b : ℕ)
        → IsPlan plans actors gifts → b < length gifts → let start = opening actors gifts in
        length (all_places (length plans) (after_all start (history_of plans (length gifts) start steps)) b) ≡ 1 }
    ensures none { (plans : List RingPlan) (actors : ℕ) (gifts : List ℕ) (steps : List (ℕ × Step)) (b : ℕ)
        → IsPlan plans actors gifts → length gifts ≤ b → let start = opening actors gifts in
        length (all_places (length plans) (after_all start (history_of plans (length gifts) start steps)) b) ≡ 0 }
{}

/// Refusals are true, after every list of steps: if the next step is answered `NoRoom`, there was too little room when
/// that actor last asked for it; if `Contended`, the own word isn't the one the actor looked at; if `Busy`, another
/// actor's span of the side is open; if `NotYet`, a span of the side with a lower start is open.
pub fn every_refusal_is_true()
    ensures no_room { (plans : List RingPlan) (actors : ℕ) (gifts : List ℕ) (steps : List (ℕ × Step))
        → IsPlan plans actors gifts
        → let start = opening actors gifts in let events = history_of plans (length gifts) start steps in
        (i ring : ℕ) (side : Side) (how : How) (count room : ℕ) (plan : RingPlan) → slice_get plans ring ≡ Some plan
        → reply_to plans (length gifts) (after_all start events) i (Reserve ring side how count) ≡ NoRoom room
        → HadNoRoom plan start events i ring side how count }
    ensures contended { (plans : List RingPlan) (actors : ℕ) (gifts : List ℕ) (steps : List (ℕ × Step))
        → IsPlan plans actors gifts
        → let start = opening actors gifts in let now = after_all start (history_of plans (length gifts) start steps) in
        (i ring : ℕ) (side : Side) (how : How) (count word : ℕ) (plan : RingPlan) → slice_get plans ring ≡ Some plan
        → reply_to plans (length gifts) now i (Reserve ring side how count) ≡ Contended word
        → HasMoved plan now i ring side word }
    ensures busy { (plans : List RingPlan) (actors : ℕ) (gifts : List ℕ) (steps : List (ℕ × Step))
        → IsPlan plans actors gifts
        → let start = opening actors gifts in let now = after_all start (history_of plans (length gifts) start steps) in
        (i ring : ℕ) (side : Side) (word : ℕ) → reply_to plans (length gifts) now i (Look ring side) ≡ Busy word
        → IsTaken now i ring side }
    ensures early_put { (plans : List RingPlan) (actors : ℕ) (gifts : List ℕ) (steps : List (ℕ × Step))
        → IsPlan plans actors gifts
        → let start = opening actors gifts in let now = after_all start (history_of plans (length gifts) start steps) in
        (i ring : ℕ) (items : List Item) (tail : ℕ)
        → reply_to plans (length gifts) now i (SettlePut ring items) ≡ NotYet tail
        → HasEarlier now i }
    ensures early_take { (plans : List RingPlan) (actors : ℕ) (gifts : List ℕ) (steps : List (ℕ × Step))
        → IsPlan plans actors gifts
        → let start = opening actors gifts in let now = after_all start (history_of plans (length gifts) start steps) in
        (i ring count tail : ℕ) → reply_to plans (length gifts) now i (SettleTake ring count) ≡ NotYet tail
        → HasEarlier now i }
{}

/// After every list of steps, a Reserve for a put into a free ring is never answered `NoRoom`.
pub fn a_free_ring_has_room()
    ensures { (plans : List RingPlan) (actors : ℕ) (gifts : List ℕ) (steps : List (ℕ × Step))
        → IsPlan plans actors gifts
        → let start = opening actors gifts in let now = after_all start (history_of plans (length gifts) start steps) in
        (i ring : ℕ) (how : How) (count room : ℕ) (plan : RingPlan)
        → slice_get plans ring ≡ Some plan → plan.free ≡ true
        → reply_to plans (length gifts) now i (Reserve ring Put how count) ≢ NoRoom room }
{}

/// A history in which each reply is the one to its step is the history of its steps, so what is stated here of lists of
/// steps also holds for it.
pub fn a_right_history_is_that_of_its_steps()
    ensures { (plans : List RingPlan) (pool : ℕ) (actors : List Actor) (events : List Event)
        → IsRun plans pool actors events → events ≡ history_of plans pool actors (steps_of events) }
{}

/// A history is sound throughout if each of its replies is the one to its step.
pub fn every_history_is_sound()
    ensures { (plans : List RingPlan) (actors : ℕ) (gifts : List ℕ) (events : List Event)
        → AllFitAny plans (length gifts)
        → ((b : ℕ) → b < length gifts → slice_index gifts b < actors)
        → IsRun plans (length gifts) (opening actors gifts) events
        → StaysSound plans (length gifts) (opening actors gifts) events }
{}

/// A granted Reserve keeps soundness: a party without an open span opens one after everything that is settled or
/// reserved on its side, within the ring's room, or its items.
pub fn a_granted_reserve_keeps_soundness()
    ensures { (plans : List RingPlan) (pool : ℕ) (parties : List (Party Item)) (i : ℕ) (d : Party Item)
        (span : Span) (plan : RingPlan)
        → Sound tags plans pool parties → i < length parties → (slice_index_or parties i d).span ≡ None
        → slice_get plans span.ring ≡ Some plan → plan.geometry.capacity < plan.geometry.size
        → IsReservable plan.geometry parties span
        → Sound tags plans pool (reserved_by parties i d span) }
{}

/// A Settle that is Done keeps soundness: a party settles the first open span of its side, a put with its own items,
/// for which the ring has room, and a take with the items at the front of the queue.
pub fn a_done_settle_keeps_soundness()
    ensures put { (plans : List RingPlan) (pool : ℕ) (parties : List (Party Item)) (i : ℕ) (d : Party Item)
        (ring start count : ℕ) (items : List Item) (plan : RingPlan)
        → let span : Span = record { ring = ring; side = Put; start = start; count = count } in
        Sound tags plans pool parties → i < length parties → (slice_index_or parties i d).span ≡ Some span
        → slice_get plans ring ≡ Some plan → start ≡ (side_of parties ring Put).len → length items ≤ count
        → (side_of parties ring Put).len + length items ≤ (side_of parties ring Take).len + plan.geometry.capacity
        → Owns tags (slice_index_or parties i d) items
        → Sound tags plans pool (settled_by parties i d span items) }
    ensures taken { (plans : List RingPlan) (pool : ℕ) (parties : List (Party Item)) (i : ℕ) (d : Party Item)
        (ring start count : ℕ) (items : List Item) (plan : RingPlan)
        → let span : Span = record { ring = ring; side = Take; start = start; count = count } in
        Sound tags plans pool parties → i < length parties → (slice_index_or parties i d).span ≡ Some span
        → slice_get plans ring ≡ Some plan → start ≡ (side_of parties ring Take).len → length items ≤ count
        → items ≡ take (length items) (queue parties ring)
        → Sound tags plans pool (settled_by parties i d span items) }
{}

/// Every other step leaves the parties as they are, whatever the reply.
pub fn every_other_step_leaves_the_parties()
    ensures { (actors : List Actor) (e : Event) → is_grant e.reply ≡ false → is_done e.reply ≡ false
        → parties_of (after actors e) ≡ parties_of actors }
{}

/// A party without spans and buffers may join at any time: soundness is kept, and so is the order of open spans after
/// settled positions.
pub fn a_newcomer_keeps_soundness()
    ensures rule { (plans : List RingPlan) (parties : List (Party Item))
        → HeadTailRule plans parties → HeadTailRule plans (parties ++ newcomer [] ∷ []) }
    ensures sound { (plans : List RingPlan) (pool : ℕ) (parties : List (Party Item))
        → Sound tags plans pool parties → Sound tags plans pool (parties ++ newcomer [] ∷ []) }
{}

/// Two parties without open spans may become one; the other is then like a newcomer. Soundness is kept, and so is the
/// order of open spans after settled positions.
pub fn two_made_one_keep_soundness()
    ensures rule { (plans : List RingPlan) (pool : ℕ) (parties : List (Party Item)) (i j : ℕ) (d : Party Item)
        → Sound tags plans pool parties → HeadTailRule plans parties → i < length parties → j < length parties → j ≢ i
        → (slice_index_or parties i d).span ≡ None → (slice_index_or parties j d).span ≡ None
        → let both = joined (slice_index_or parties i d) (slice_index_or parties j d) in
        HeadTailRule plans (slice_set (slice_set parties i both) j (newcomer [])) }
    ensures sound { (plans : List RingPlan) (pool : ℕ) (parties : List (Party Item)) (i j : ℕ) (d : Party Item)
        → Sound tags plans pool parties → i < length parties → j < length parties → j ≢ i
        → (slice_index_or parties i d).span ≡ None → (slice_index_or parties j d).span ≡ None
        → let both = joined (slice_index_or parties i d) (slice_index_or parties j d) in
        Sound tags plans pool (slice_set (slice_set parties i both) j (newcomer [])) }
{}
