//! Where a connect goes, as rows: the line of a script, and after `> ` the line of the answer, after a dial with the
//! authority and the path of the request.
use std::alloc::Global;
use std::process::Abort;
use wt_script::print::print_answer;
use wt_script::script::lines::read_turn;
use wt_session::connect_target::{ConnectTarget, connect_target};
use wt_turn::action::{Action, Actions};
use wt_turn::answer::Answer;
use wt_turn::call::Call;
use wt_turn::connecting_error::ConnectingError;
use wt_turn::reply::Reply;
use wt_turn::turn::Turn;
use wt_wire::addr::Addr;
use wt_wire::lookup::{ConnectOutcome, Lookup};
use wt_wire::text::Text;

/// Each call stands in a function of its own, so that a test is cheap to prove.
fn target(
    rt: &impl Abort,
    alloc: Global,
    url: &str,
    lookup: Lookup,
    outcome: ConnectOutcome,
) -> Result<ConnectTarget, ConnectingError> {
    connect_target(alloc, url, lookup, outcome).expect(rt, "no memory")
}

fn printed(rt: &impl Abort, alloc: Global, reply: Reply, actions: Actions) -> Text {
    print_answer(alloc, &Answer { reply, actions }).expect(rt, "no memory")
}

fn dialled(rt: &impl Abort, alloc: Global, address: Addr, name: Text) -> Text {
    let mut actions = Actions::new(alloc);
    let pushed = actions.push(Action::Dial { address, name });
    pushed.expect(rt, "no memory");
    printed(rt, alloc, Reply::Pending, actions)
}

fn refused(rt: &impl Abort, alloc: Global, error: ConnectingError) -> Text {
    printed(rt, alloc, Reply::ConnectFailed(error), Actions::new(alloc))
}

fn call(rt: &impl Abort, alloc: Global, line: &str) -> Call {
    let turn = read_turn(alloc, line.as_bytes()).expect(rt, "no memory");
    match turn {
        Some(Turn::Call(call)) => call,
        _ => panic!(rt; "no call"),
    }
}

fn comes_to(rt: &impl Abort, alloc: Global, line: &str, expected: &str) {
    let (url, lookup, outcome) = match call(rt, alloc, line) {
        Call::Connect {
            options,
            lookup,
            outcome,
        } => (options.0, lookup, outcome),
        _ => panic!(rt; "no connect"),
    };
    match target(rt, alloc, url.as_str(), lookup, outcome) {
        Ok(target) => {
            let (answer, request) = expected.rsplit_once(' ').expect(rt, "a dial has a request");
            let (authority, path) = request.split_once('/').expect(rt, "a request has a path");
            let line = dialled(rt, alloc, target.address, target.server_name);
            assert_eq!(rt; line.as_str(), answer);
            assert_eq!(rt; target.authority.as_str(), authority);
            assert_eq!(rt; target.path.as_str().strip_prefix("/"), Some(path));
        }
        Err(error) => assert_eq!(rt; refused(rt, alloc, error).as_str(), expected),
    }
}

/// The connects of these rows come to what stands behind them.
fn come_to(rt: &impl Abort, alloc: Global, rows: &str) {
    for row in rows.lines() {
        let (line, expected) = row.split_once(" > ").expect(rt, "a row has an answer");
        comes_to(rt, alloc, line, expected);
    }
}

/// The URL comes first, then the lookup, then what QUIC answers.
const REFUSED: &str = "\
connect http://h none stopping > connect_failed invalid_url scheme
connect wss://h none stopping > connect_failed invalid_url scheme
connect https:// none stopping > connect_failed invalid_url parse
connect h none stopping > connect_failed invalid_url parse
connect https://h:65536/ none stopping > connect_failed invalid_url parse
connect https://h none stopping > connect_failed dns_not_found
connect https://h fault:6e6f proceed > connect_failed dns_lookup 6e6f
connect https://h v4:7f000001:443 stopping > connect_failed endpoint_stopping
connect https://h v4:7f000001:443 cids > connect_failed cids_exhausted
connect https://h v4:7f000001:443 address:v4:7f000001:0 > connect_failed invalid_remote_address v4:7f000001:0
connect https://h v4:7f000001:443 name:68 > connect_failed invalid_server_name 68";

#[test]
fn connects_that_are_refused(rt: HostRuntime) {
    come_to(&rt, rt.alloc(), REFUSED);
}

const TAKEN: &str = "\
connect https://h v4:7f000001:4433 proceed > pending ; dial v4:7f000001:4433 68 h/
connect https://h:443/ v4:7f000001:4433 proceed > pending ; dial v4:7f000001:4433 68 h/
connect https://h:4433/p?q v4:7f000001:4433 proceed > pending ; dial v4:7f000001:4433 68 h:4433/p?q
connect https://u:w@h:4433/p?q#f v4:7f000001:4433 proceed > pending ; dial v4:7f000001:4433 68 h:4433/p?q
connect https://H/a/../b? v4:7f000001:4433 proceed > pending ; dial v4:7f000001:4433 68 h/b?
connect https://127.0.0.1/ none proceed > pending ; dial v4:7f000001:443 3132372e302e302e31 127.0.0.1/
connect https://127.0.0.1:0/ none proceed > pending ; dial v4:7f000001:0 3132372e302e302e31 127.0.0.1:0/
connect https://[::1]/x none proceed > pending ; dial v6:00000000000000000000000000000001:443 3a3a31 [::1]/x
connect https://[::ffff:127.0.0.1]:4433 none proceed > \
    pending ; dial v6:00000000000000000000ffff7f000001:4433 3a3a666666663a376630303a31 [::ffff:7f00:1]:4433/";

#[test]
fn targets_of_names_and_addresses(rt: HostRuntime) {
    come_to(&rt, rt.alloc(), TAKEN);
}
