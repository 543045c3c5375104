//! Tests of texts, lists of fields, field sections and lookups on bytes that come from outside.
use crate::tests::shown::shows;
use std::alloc::Global;
use std::process::Abort;
use wt_wire::header_list::HeaderList;
use wt_wire::headers::Headers;
use wt_wire::lookup::{ConnectOutcome, Lookup};
use wt_wire::text::Text;
use wt_wire::utf8::from_utf8;

/// Payloads that aren't field sections of literal lines with literal names.
const REFUSED: [&[u8]; 12] = [
    b"\x00",
    b"\x01\x00",
    b"\x00\x01",
    b"\x00\x00\xd1",
    b"\x00\x00\x51\x01b",
    b"\x00\x00\x29a\x01b",
    b"\x00\x00\x21a\x81b",
    b"\x00\x00\x21a",
    b"\x00\x00\x21a\x02b",
    b"\x00\x00\x21\xff\x01b",
    b"\x00\x00\x27\x80\x80\x80\x80\x00\x01b",
    b"\x00\x00\x21a\x01\xed\xa0\x80",
];

/// A field section whose names don't ascend, and one of which comes twice.
const UNORDERED: &[u8] = b"\x00\x00\x21b\x011\x21a\x012\x22:z\x013\x21b\x014";

const ORDERED: &str =
    "Ok(Ok(Headers { list: HeaderList { fields: [(Text { text: \":z\" }, Text { text: \"3\" }), (Text { text: \"a\" }, Text { text: \"2\" }), (Text { text: \"b\" }, Text { text: \"4\" })] } }))";

fn section(rt: &impl Abort, alloc: Global, payload: &[u8], shown: &str) {
    shows(rt, alloc, Headers::with_payload(alloc, payload), shown);
}

#[test]
fn field_sections_are_read(rt: HostRuntime) {
    let alloc = rt.alloc();
    for payload in REFUSED {
        section(&rt, alloc, payload, "Ok(Err(Decompression))");
    }
    section(&rt, alloc, UNORDERED, ORDERED);
}

fn long_text(rt: &impl Abort, alloc: Global) -> String {
    let mut long = String::new(alloc);
    for _ in 0..3000 {
        long.push_str("ab").expect(rt, "no memory");
    }
    long
}

fn long_headers(rt: &impl Abort, alloc: Global) -> Headers {
    let long = long_text(rt, alloc);
    let mut headers = Headers::new(alloc);
    let named = headers.insert("name-of-seven", long.as_str());
    named.expect(rt, "no memory");
    let valued = headers.insert(long.as_str(), "");
    valued.expect(rt, "no memory");
    headers
}

fn are_read_back(rt: &impl Abort, alloc: Global, headers: &Headers) {
    let copy = headers.copy().expect(rt, "no memory");
    assert!(rt; copy.list() == headers.list());
    let frame = headers.generate_frame().expect(rt, "no memory");
    match Headers::with_frame(alloc, &frame) {
        Ok(Ok(again)) => assert!(rt; again.list() == headers.list()),
        _ => panic!(rt; "refused"),
    }
}

#[test]
fn long_texts_are_read_back(rt: HostRuntime) {
    let headers = long_headers(&rt, rt.alloc());
    are_read_back(&rt, rt.alloc(), &headers);
}

/// Bytes, and the text that they are, if they are UTF-8.
const TEXTS: [(&[u8], Option<&str>); 6] = [
    (b"\xc0\x80", None),
    (b"\xe0\x80\x80", None),
    (b"\xed\xa0\x80", None),
    (b"\xf4\x90\x80\x80", None),
    (b"\xe2\x82", None),
    (
        b"a\xc3\xa4\xe2\x82\xac\xf0\x9f\x98\x80",
        Some("a\u{e4}\u{20ac}\u{1f600}"),
    ),
];

#[test]
fn texts_are_utf8(rt: HostRuntime) {
    for (bytes, text) in TEXTS {
        assert_eq!(rt; from_utf8(bytes), text);
    }
}

fn list_is_copied(rt: &impl Abort, alloc: Global) {
    let mut list = HeaderList::new(alloc);
    list.set("b", "1").expect(rt, "no memory");
    list.set("b", "2").expect(rt, "no memory");
    let shown = "Ok(HeaderList { fields: [(Text { text: \"b\" }, Text { text: \"2\" })] })";
    shows(rt, alloc, list.copy(), shown);
}

fn text(rt: &impl Abort, alloc: Global) -> Text {
    Text::from_text(alloc, "a\u{e4}").expect(rt, "no memory")
}

#[test]
fn values_are_copied(rt: HostRuntime) {
    let alloc = rt.alloc();
    list_is_copied(&rt, alloc);
    let fault = Lookup::Fault(text(&rt, alloc));
    let shown = "Ok(Fault(Text { text: \"a\u{e4}\" }))";
    shows(&rt, alloc, fault.copy(), shown);
    let outcome = ConnectOutcome::InvalidServerName(text(&rt, alloc));
    let shown = "Ok(InvalidServerName(Text { text: \"a\u{e4}\" }))";
    shows(&rt, alloc, outcome.copy(), shown);
}
