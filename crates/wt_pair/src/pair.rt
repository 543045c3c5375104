//! Two ends and what waits for them.
ghost use Rattle.std.specs.Prelude.{◌++◌, ◌≡◌, IfOk, OnOk, Some, filter_map, option_to_list};
ghost use Rattle.std.specs.List.{list_any};
ghost use Rattle.wt_meaning.specs.Lawful.{is_lawful};
ghost use Rattle.wt_pair.specs.Keeping.{Becomes, KeepsBoth, KeepsEnd, KeepsPair, Steps, TakesTurn};
ghost use Rattle.wt_pair.specs.Kept.{with_more};
ghost use Rattle.wt_pair.specs.Link.{item_of};
ghost use Rattle.wt_pair.specs.Pair.{Ends, acknowledgement, arrives, at_end, at_first, end_at, end_of_event, gives_credit, happens, if_dialled, no_end};
ghost use Rattle.wt_pair.specs.Pair as pairs;
ghost use Rattle.wt_pair.specs.declared.event.PairEvent.TheVariants as pair_events;
ghost use Rattle.wt_pair.specs.declared.event.PairFacts.{PairFacts};
ghost use Rattle.wt_turn.specs.Sent.{dials};
ghost use Rattle.wt_wire.specs.declared.side.Side.{Side};

use crate::answer::PairAnswer;
use crate::event::{PairEvent, PairFacts};
use crate::item::Item;
use crate::link::Link;
use std::alloc::Global;
use std::marker::Model;
use wt_core::Core;
use wt_turn::{Action, Answer, Call, Turn};
use wt_wire::error::OutOfMemory;
use wt_wire::side::Side;

/// What an event comes to here: its answer, or None where it doesn't fit.
type Outcome = Result<Option<PairAnswer>, OutOfMemory>;

/// An end: its core, and what waits for it.
#[derive(Drop)]
struct End {
    core: Core,
    link: Link,
}

impl Model for End {
    ghost use Rattle.wt_pair.specs.Kept.{EndNow};

    ghost Value = { EndNow };

    ghost view = { λ e. record {
      core = e.core;
      link = e.link;
    } };
}

impl End {
    /// An end of this side before its first turn, for which nothing waits.
    fn new(alloc: Global, side: Side) -> End
        ensures { KeepsEnd side result no_end }
    {
        End {
            core: Core::new(alloc, side),
            link: Link::new(alloc),
        }
    }

    /// The end's answer to the turn; None where the turn isn't lawful there, which changes nothing.
    fn take_turn(&mut self, turn: &Turn) -> Result<Option<Answer>, OutOfMemory>
        ensures { (side : Side) (e : pairs.End) → KeepsEnd side self.old e → IfOk result (λ answer. TakesTurn side e turn.now answer self.new) }
    {
        if !self.core.is_lawful(turn) {
            return Ok(None);
        }
        let answer = self.core.turn(turn)?;
        Ok(Some(answer))
    }
}

/// A client's end and a server's, joined by a link. Contracts see what both keep.
#[derive(Drop)]
pub struct Pair {
    alloc: Global,
    facts: PairFacts,
    client: End,
    server: End,
}

impl Model for Pair {
    ghost use Rattle.wt_pair.specs.Kept.{PairNow};

    ghost Value = { PairNow };

    ghost view = { λ p. record {
      facts = p.facts;
      client = p.client;
      server = p.server;
    } };
}

impl Pair {
    /// Two ends before their first turns, for which nothing waits. These facts are what the connection will bring to each.
    pub fn new(alloc: Global, facts: PairFacts) -> Pair
        ensures { KeepsPair facts result at_first }
    {
        Pair {
            alloc,
            facts,
            client: End::new(alloc, Side::Client),
            server: End::new(alloc, Side::Server),
        }
    }

    /// What becomes of an event; None where it doesn't fit, which changes nothing.
    ///
    /// # Errors
    ///
    /// `OutOfMemory` where an end or what waits found no memory. Nothing is said of both ends then.
    pub fn step(&mut self, event: &PairEvent) -> Result<Option<PairAnswer>, OutOfMemory>
        ensures { (f : PairFacts) (p : Ends) → KeepsPair f self.old p → IfOk result (λ answer. Steps f p (happens f event.now p) answer self.new) }
    {
        let facts = self.facts;
        match event.end() {
            Side::Client => happen(
                self.alloc,
                &facts,
                &mut self.client,
                &mut self.server,
                event,
            ),
            Side::Server => happen(
                self.alloc,
                &facts,
                &mut self.server,
                &mut self.client,
                event,
            ),
        }
    }
}

/// What becomes of an event that happens here, at one of both ends.
fn happen(
    alloc: Global,
    facts: &PairFacts,
    here: &mut End,
    there: &mut End,
    event: &PairEvent,
) -> Outcome
    ensures { (p : Ends) → KeepsBoth (end_of_event event.now) here.old there.old p
        → IfOk result (λ answer. Becomes (end_of_event event.now) p (happens facts.now event.now p) answer here.new there.new) }
{
    match event {
        PairEvent::Call { call, .. } => take_call(alloc, facts, here, there, call),
        PairEvent::Deliver { place, bytes, .. } => deliver(facts, here, there, *place, *bytes),
        PairEvent::Lose { place, .. } => Ok(lose(here, there, *place)),
        PairEvent::Credit { turn, .. } => take_credit(facts, here, there, turn),
    }
}

/// The application here calls.
fn take_call(
    alloc: Global,
    facts: &PairFacts,
    here: &mut End,
    there: &mut End,
    call: &Call,
) -> Outcome
    ensures { (side : Side) (p : Ends) → KeepsBoth side here.old there.old p
        → IfOk result (λ answer. Becomes side p (happens facts.now (pair_events.Call side call.now) p) answer here.new there.new) }
{
    let turn = Turn::Call(call.copy(alloc)?);
    take_turn(facts, here, there, &turn)
}

/// The transport here gives more credit.
fn take_credit(facts: &PairFacts, here: &mut End, there: &mut End, turn: &Turn) -> Outcome
    ensures { (side : Side) (p : Ends) → KeepsBoth side here.old there.old p
        → IfOk result (λ answer. Becomes side p (happens facts.now (pair_events.Credit side turn.now) p) answer here.new there.new) }
{
    if !gives_credit(turn) {
        return Ok(None);
    }
    take_turn(facts, here, there, turn)
}

/// Whether the turn gives credit.
fn gives_credit(turn: &Turn) -> bool
    ensures { result ≡ gives_credit turn.now }
{
    match turn {
        Turn::MaxUni { .. } => true,
        Turn::MaxBi { .. } => true,
        Turn::MaxData { .. } => true,
        _ => false,
    }
}

/// A datagram that waits for this end is lost.
fn lose(here: &mut End, _there: &End, place: u64) -> Option<PairAnswer>
    ensures { (f : PairFacts) (side : Side) (p : Ends) → KeepsBoth side here.old _there.now p
        → Becomes side p (happens f (pair_events.Lose side place) p) result here.new _there.now }
{
    if here.link.lose(place) {
        return Some(PairAnswer::Lost);
    }
    None
}

/// What waits for this end is delivered.
fn deliver(facts: &PairFacts, here: &mut End, there: &mut End, place: u64, bytes: u64) -> Outcome
    ensures { (side : Side) (p : Ends) → KeepsBoth side here.old there.old p
        → IfOk result (λ answer. Becomes side p (happens facts.now (pair_events.Deliver side place bytes) p) answer here.new there.new) }
{
    match here.link.deliver(place, bytes)? {
        Some(turn) => arrive(facts, here, there, &turn),
        None => Ok(None),
    }
}

/// A turn that was delivered comes here, where it is still lawful. The end of a stream is acknowledged.
fn arrive(facts: &PairFacts, here: &mut End, there: &mut End, turn: &Turn) -> Outcome
    ensures { (side : Side) (p : Ends) → KeepsBoth side here.old there.old p
        → IfOk result (λ answer. Becomes side p (Some (arrives facts.now side turn.now p)) answer here.new there.new) }
{
    match take_turn(facts, here, there, turn)? {
        Some(answer) => {
            acknowledge(&mut there.link, turn)?;
            Ok(Some(answer))
        }
        None => Ok(Some(PairAnswer::Stale)),
    }
}

/// Where the turn brings the end of a stream, its sender is told.
fn acknowledge(there: &mut Link, turn: &Turn) -> Result<(), OutOfMemory>
    ensures { OnOk result (there.new ≡ with_more (acknowledgement turn.now) there.old) }
{
    match turn {
        Turn::End { id } => there.add(Item::acknowledged(*id)),
        _ => Ok(()),
    }
}

/// The answer to a turn here, where it is lawful here. What goes out here waits for the other end.
fn take_turn(facts: &PairFacts, here: &mut End, there: &mut End, turn: &Turn) -> Outcome
    ensures { (side : Side) (p : Ends) → KeepsBoth side here.old there.old p
        → IfOk result (λ answer. Becomes side p (at_end facts.now side turn.now p (is_lawful side (end_at p side).history turn.now)) answer here.new there.new) }
{
    match here.take_turn(turn)? {
        Some(answer) => {
            send(
                facts,
                &mut here.link,
                &mut there.link,
                answer.actions.as_slice(),
            )?;
            Ok(Some(PairAnswer::Turn(answer)))
        }
        None => Ok(None),
    }
}

/// What goes out here waits for the other end. A dial brings the connection to both.
fn send(
    facts: &PairFacts,
    here: &mut Link,
    there: &mut Link,
    actions: &[Action],
) -> Result<(), OutOfMemory>
    ensures here { OnOk result (here.new ≡ with_more (if_dialled facts.now actions.now) here.old) }
    ensures there { OnOk result (there.new ≡ with_more (if_dialled facts.now actions.now ++ filter_map item_of actions.now) there.old) }
{
    if dials(actions) {
        here.add(Item::connected(facts))?;
        there.add(Item::connected(facts))?;
    }
    add_items(there, actions)
}

/// Whether one of these dials.
fn dials(actions: &[Action]) -> bool
    ensures { result ≡ list_any dials actions.now }
{
    actions
        .iter()
        .any(|action| matches!(action, Action::Dial { .. }))
}

/// What these actions come to waits for the end.
fn add_items(link: &mut Link, actions: &[Action]) -> Result<(), OutOfMemory>
    ensures { OnOk result (link.new ≡ with_more (filter_map item_of actions.now) link.old) }
{
    for action in actions {
        add_item(link, action)?;
    }
    Ok(())
}

/// What this action comes to waits for the end, if it comes to something.
fn add_item(link: &mut Link, action: &Action) -> Result<(), OutOfMemory>
    ensures { OnOk result (link.new ≡ with_more (option_to_list (item_of action.now)) link.old) }
{
    match Item::of_action(action)? {
        Some(item) => link.add(item),
        None => Ok(()),
    }
}
