//! Scripts of two ends: the facts, and then the events, a line each.
ghost use Rattle.std.specs.Prelude.{◌≡◌, ◌∷◌, IfOk, None, Some, if◌then◌else◌};
ghost use Rattle.std.specs.Option.{option_map};
ghost use Rattle.wt_pair.specs.Script.{call_event, credit_event, deliver_event, event_at, event_of, event_of_words, facts_in, facts_of, facts_of_words, lose_event, no_lines, pair_script_of, step_event, step_of_words, with_event, with_facts};
ghost use Rattle.wt_script.specs.Script.{turn_of_words};

use crate::event::{PairEvent, PairFacts};
use std::alloc::Global;
use std::marker::Model;
use wt_script::draft::{Draft, read_lines};
use wt_script::script::ScriptRefused;
use wt_script::script::events::read_connected;
use wt_script::script::lines::{read_side, read_words};
use wt_script::script::numbers::read_count;
use wt_script::script::words::{Parts, is_name};
use wt_turn::Turn;
use wt_wire::error::OutOfMemory;
use wt_wire::side::Side;

/// What a script of two ends says. Contracts see the facts and the list of events.
#[derive(Debug, Drop)]
pub struct PairScript {
    facts: PairFacts,
    events: Vec<PairEvent>,
}

impl Model for PairScript {
    ghost use Rattle.wt_pair.specs.Lines.{Scripted};

    ghost Value = { Scripted };

    ghost view = { λ s. record {
      facts = s.facts;
      events = s.events.items;
    } };
}

impl PairScript {
    /// What the connection brings to each end.
    pub fn facts(&self) -> PairFacts
        ensures { result ≡ self.now.facts }
    {
        self.facts
    }

    /// What happens, in order.
    pub fn events(&self) -> &[PairEvent]
        ensures { result.now ≡ self.now.events }
    {
        self.events.as_slice()
    }
}

/// What the lines so far say.
#[derive(Debug, Drop)]
struct PairLines {
    facts: Option<PairFacts>,
    events: Vec<PairEvent>,
}

impl Model for PairLines {
    ghost use Rattle.wt_pair.specs.Lines as said;

    ghost Value = { said.PairLines };

    ghost view = { λ d. record {
      facts = d.facts;
      events = d.events.items;
    } };
}

impl PairLines {
    fn new(alloc: Global) -> PairLines
        ensures { result ≡ no_lines }
    {
        PairLines {
            facts: None,
            events: Vec::new(alloc),
        }
    }

    fn take_facts(&mut self, line: &[u8]) -> bool
        ensures { option_map (with_facts self.old) (facts_of line.now) ≡ (if result then Some self.new else None) }
    {
        match read_facts(line) {
            Some(facts) => {
                self.facts = Some(facts);
                true
            }
            None => false,
        }
    }

    fn take_event(&mut self, alloc: Global, line: &[u8]) -> Result<bool, OutOfMemory>
        ensures { IfOk result (λ taken. option_map (with_event self.old) (event_of line.now) ≡ (if taken then Some self.new else None)) }
    {
        match read_event(alloc, line)? {
            Some(event) => {
                self.events.push(event)?;
                Ok(true)
            }
            None => Ok(false),
        }
    }
}

impl Draft for PairLines {
    ghost use Rattle.wt_pair.specs.Script.{script_at_end, with_words};

    type Whole = PairScript;

    ghost with_words = { with_words };

    ghost at_end = { script_at_end };

    fn take_line(&mut self, alloc: Global, line: &[u8]) -> Result<bool, OutOfMemory> {
        match self.facts {
            None => Ok(self.take_facts(line)),
            Some(_) => self.take_event(alloc, line),
        }
    }

    fn finish(self, number: u64) -> Result<PairScript, ScriptRefused> {
        match self.facts {
            Some(facts) => Ok(PairScript {
                facts,
                events: self.events,
            }),
            None => Err(ScriptRefused { line: number }),
        }
    }
}

/// Reads a script of two ends: lines that end with a line feed, which the last may lack. An empty line and one that begins with `#` are
/// left out, and counted. The first other line has the word `pair` and the fields of a `connected` line, each further one is an event.
///
/// # Errors
///
/// `OutOfMemory` where the events found no memory; the answer `Err` names the first line that isn't in the grammar, or the one after the
/// last where none has the facts.
pub fn read_pair_script(
    alloc: Global,
    script: &[u8],
) -> Result<Result<PairScript, ScriptRefused>, OutOfMemory>
    ensures { IfOk result (λ r. r ≡ pair_script_of script.now) }
{
    read_lines(alloc, PairLines::new(alloc), script)
}

// ---- the facts

/// The facts that the first line spells.
fn read_facts(line: &[u8]) -> Option<PairFacts>
    ensures { result ≡ facts_of line.now }
{
    let (name, fields) = Parts::of_line(line).split_first()?;
    facts_from(name, &fields)
}

fn facts_from(name: &[u8], fields: &Parts) -> Option<PairFacts>
    ensures { result ≡ facts_of_words (name.now ∷ fields.now) }
{
    if is_name(name, b"pair") {
        facts_in(read_connected(fields))
    } else {
        None
    }
}

/// What the connection brings.
fn facts_in(turn: Option<Turn>) -> Option<PairFacts>
    ensures { result ≡ facts_in turn }
{
    match turn {
        Some(
            Turn::Connected {
                uni,
                bi,
                credit,
                datagrams,
            },
        ) => Some(PairFacts {
            uni,
            bi,
            credit,
            datagrams,
        }),
        _ => None,
    }
}

// ---- an event

/// The event that a line spells.
fn read_event(alloc: Global, line: &[u8]) -> Result<Option<PairEvent>, OutOfMemory>
    ensures { IfOk result (λ event. event ≡ event_of line.now) }
{
    match Parts::of_line(line).split_first() {
        Some((name, fields)) => event_from(alloc, name, &fields),
        None => Ok(None),
    }
}

/// The event by the first word of its line and the others: a call where that is an end's name.
fn event_from(alloc: Global, name: &[u8], fields: &Parts) -> Result<Option<PairEvent>, OutOfMemory>
    ensures { IfOk result (λ event. event ≡ event_of_words (name.now ∷ fields.now)) }
{
    match read_side(name) {
        Some(end) => Ok(call_event(end, read_words(alloc, fields)?)),
        None => read_step(alloc, name, fields),
    }
}

/// What happens to what waits for an end, or to its credit, by the first word and the others.
fn read_step(alloc: Global, name: &[u8], fields: &Parts) -> Result<Option<PairEvent>, OutOfMemory>
    ensures { IfOk result (λ event. event ≡ step_of_words name.now fields.now) }
{
    let Some((end, fields)) = fields.split_first() else {
        return Ok(None);
    };
    match read_side(end) {
        Some(to) => step_event(alloc, name, to, &fields),
        None => Ok(None),
    }
}

fn step_event(
    alloc: Global,
    name: &[u8],
    to: Side,
    fields: &Parts,
) -> Result<Option<PairEvent>, OutOfMemory>
    ensures { IfOk result (λ event. event ≡ step_event name.now to fields.now) }
{
    if is_name(name, b"deliver") {
        return Ok(read_deliver(to, fields));
    }
    if is_name(name, b"lose") {
        return Ok(read_lose(to, fields));
    }
    if is_name(name, b"credit") {
        return Ok(credit_event(to, read_words(alloc, fields)?));
    }
    Ok(None)
}

fn call_event(end: Side, turn: Option<Turn>) -> Option<PairEvent>
    ensures { result ≡ call_event end turn }
{
    match turn {
        Some(Turn::Call(call)) => Some(PairEvent::Call { end, call }),
        _ => None,
    }
}

/// More credit: a line of any turn of the transport is one, and only three of these turns fit when it comes.
fn credit_event(to: Side, turn: Option<Turn>) -> Option<PairEvent>
    ensures { result ≡ credit_event to turn }
{
    match turn {
        None => None,
        Some(Turn::Call(_)) => None,
        Some(turn) => Some(PairEvent::Credit { to, turn }),
    }
}

fn read_deliver(to: Side, fields: &Parts) -> Option<PairEvent>
    ensures { result ≡ deliver_event to fields.now }
{
    let (place, bytes) = fields.two()?;
    Some(PairEvent::Deliver {
        to,
        place: read_count(place)?,
        bytes: read_count(bytes)?,
    })
}

fn read_lose(to: Side, fields: &Parts) -> Option<PairEvent>
    ensures { result ≡ lose_event to fields.now }
{
    let place = read_count(fields.one()?)?;
    Some(PairEvent::Lose { to, place })
}
