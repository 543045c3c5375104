//! Rows of a transport: a turn as a script spells it, and the line of its answer.
use super::half_calls::make_call;
use std::alloc::Global;
use std::process::Abort;
use wt_script::print::print_answer;
use wt_script::script::lines::read_turn;
use wt_transport::Transport;
use wt_turn::action::Actions;
use wt_turn::answer::Answer;
use wt_turn::reply::Reply;
use wt_turn::turn::Turn;
use wt_wire::side::Side;
use wt_wire::text::Text;

// Each call of the transport stands in a function of its own: who calls that one knows nothing of the
// transport's contract, which makes it cheap to prove.

/// The transport of a server to which nothing was reported yet.
pub fn server(alloc: Global) -> Transport {
    Transport::new(alloc, Side::Server)
}

/// Plays rows `TURN: ANSWER`. A heading `# ..` begins a case with a server's transport of its own.
pub fn plays(rt: &impl Abort, alloc: Global, transport: &mut Transport, rows: &str) {
    for row in rows.lines() {
        if row.starts_with("#") {
            *transport = server(alloc);
        } else {
            plays_row(rt, alloc, transport, row);
        }
    }
}

/// Plays the same rows `times` times.
pub fn repeats(rt: &impl Abort, alloc: Global, transport: &mut Transport, times: u32, rows: &str) {
    for _ in 0..times {
        plays(rt, alloc, transport, rows);
    }
}

fn plays_row(rt: &impl Abort, alloc: Global, transport: &mut Transport, row: &str) {
    let (turn, answer) = row.split_once(": ").expect(rt, "a row has an answer");
    let line = line_of(rt, alloc, transport, turn);
    assert_eq!(rt; line.as_str(), answer, "{turn}");
}

/// The line of the answer. The word `actions` takes what is to go out.
fn line_of(rt: &impl Abort, alloc: Global, transport: &mut Transport, turn: &str) -> Text {
    if turn == "actions" {
        return printed(rt, alloc, Reply::Done, collected_actions(transport));
    }
    match turn_of(rt, alloc, turn) {
        Turn::Call(call) => {
            let reply = make_call(rt, alloc, transport, &call);
            printed(rt, alloc, reply, Actions::new(alloc))
        }
        event => {
            let line = line_of_event(rt, transport, &event);
            Text::from_text(alloc, line).expect(rt, "no memory")
        }
    }
}

fn collected_actions(transport: &mut Transport) -> Actions {
    transport.take_actions()
}

/// The turn that a line spells.
fn turn_of(rt: &impl Abort, alloc: Global, turn: &str) -> Turn {
    let turn = read_turn(alloc, turn.as_bytes()).expect(rt, "no memory");
    turn.expect(rt, "a line of a script")
}

fn printed(rt: &impl Abort, alloc: Global, reply: Reply, actions: Actions) -> Text {
    print_answer(alloc, &Answer { reply, actions }).expect(rt, "no memory")
}

/// Takes an event where it fits.
fn line_of_event(rt: &impl Abort, transport: &mut Transport, event: &Turn) -> &'static str {
    if !transport.fits(event) {
        return "unlawful";
    }
    transport.take(event).expect(rt, "no memory");
    "done"
}
