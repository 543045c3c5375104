//! Tests as scripts: each runs twice, with every piece whole and with every piece in single bytes.
//!
//! A script has the lines of docs/FORMATS.md, "Scripts", without that of the side; blanks around a line are left out. A call that names no
//! session is made on that of stream 0. After a line may stand what it answers, as docs/FORMATS.md, "Printed lines", has it, after `> `. A
//! line without that answers `done`, and nothing goes out. Words in capitals stand for the bytes that [`NAMES`] has for them: a request, what
//! is printed of its fields, a response that accepts, and what each end opens with. A `~` stands between cases, each of which has a
//! connection of its own.
use super::application::Application;
use std::alloc::Global;
use std::process::Abort;
use wt_script::print::print_answer;
use wt_script::script::lines::read_turn;
use wt_turn::turn::Turn;
use wt_wire::side::Side;
use wt_wire::text::Text;

/// Each name in a script, with what stands for it.
const NAMES: [(&str, &str); 4] = [
    (
        "REQUEST",
        "014050000027033a617574686f72697479016827003a6d6574686f6407434f4e4e454354\
        253a70617468012f27023a70726f746f636f6c0c7765627472616e73706f727427003a736368656d65056874747073",
    ),
    (
        "FIELDS",
        "3a617574686f72697479=68 3a6d6574686f64=434f4e4e454354 3a70617468=2f \
        3a70726f746f636f6c=7765627472616e73706f7274 3a736368656d65=6874747073",
    ),
    ("OK", "010f000027003a73746174757303323030"),
    (
        "SETTINGS",
        "0004160100070008013301ab60374201c0000000c671706a04",
    ),
];

fn read(rt: &impl Abort, alloc: Global, line: &str) -> Turn {
    let turn = read_turn(alloc, line.as_bytes()).expect(rt, "no memory");
    turn.expect(rt, "no turn")
}

fn done(rt: &impl Abort, alloc: Global) -> Text {
    Text::from_text(alloc, "done").expect(rt, "no memory")
}

/// What a line answers, as it is printed.
fn answered(rt: &impl Abort, alloc: Global, application: &mut Application, line: &str) -> Text {
    let turn = read(rt, alloc, line);
    let answer = application.answer(rt, turn);
    print_answer(alloc, &answer).expect(rt, "no memory")
}

fn run_lines(rt: &impl Abort, alloc: Global, application: &mut Application, script: &str) {
    let mut answer = done(rt, alloc);
    for line in script.lines() {
        let line = line.trim();
        match line.strip_prefix("> ") {
            Some(expected) => {
                assert_eq!(rt; answer.as_str(), expected);
                answer = done(rt, alloc);
            }
            None => {
                assert_eq!(rt; answer.as_str(), "done", "before {line}");
                if !line.is_empty() {
                    answer = answered(rt, alloc, application, line);
                }
            }
        }
    }
    assert_eq!(rt; answer.as_str(), "done");
}

fn spelled(rt: &impl Abort, alloc: Global, script: &str) -> String {
    let mut spelled = String::new(alloc);
    spelled.push_str(script).expect(rt, "no memory");
    for (name, bytes) in NAMES {
        spelled = spelled.replace(alloc, name, bytes).expect(rt, "no memory");
    }
    spelled
}

fn run_case(rt: &impl Abort, alloc: Global, side: Side, front: &str, case: &str, is_whole: bool) {
    let mut application = Application::new(alloc, side, is_whole);
    run_lines(rt, alloc, &mut application, front);
    run_lines(rt, alloc, &mut application, case);
}

/// Runs each case after the lines in front of all, whole and in single bytes.
pub fn runs(rt: &impl Abort, alloc: Global, side: Side, front: &str, cases: &str) {
    let front = spelled(rt, alloc, front);
    let cases = spelled(rt, alloc, cases);
    for case in cases.as_str().split('~') {
        run_case(rt, alloc, side, front.as_str(), case, true);
        run_case(rt, alloc, side, front.as_str(), case, false);
    }
}
