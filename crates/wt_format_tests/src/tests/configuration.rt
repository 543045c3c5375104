//! Digests, the pinned check and the builders on values that are known outside.
use crate::tests::shown::shows;
use std::alloc::Global;
use std::process::Abort;
use wt_config::certificate::{CertFacts, Curve, KeyKind};
use wt_config::client::ClientConfig;
use wt_config::digest::{Sha256Digest, Sha256DigestFmt};
use wt_config::dns::DnsResolver;
use wt_config::idle::{IdleTimeout, InvalidIdleTimeout};
use wt_config::server::ServerConfig;
use wt_config::tls::{Opaque, TlsChoice};
use wt_config::verification::ServerHashVerification;
use wt_wire::addr::Addr;
use wt_wire::error::OutOfMemory;
use wt_wire::lookup::Lookup;

/// The digest of the bytes 97 to 127, and then 64.
const LETTERS: [u8; 32] = [
    97, 98, 99, 100, 101, 102, 103, 104, 105, 106, 107, 108, 109, 110, 111, 112, 113, 114, 115,
    116, 117, 118, 119, 120, 121, 122, 123, 124, 125, 126, 127, 64,
];

const ARRAY: &str =
    "[97, 98, 99, 100, 101, 102, 103, 104, 105, 106, 107, 108, 109, 110, 111, 112, 113, 114, 115, 116, 117, 118, 119, 120, 121, 122, 123, 124, 125, 126, 127, 64]";

const DOTTED: &str =
    "61:62:63:64:65:66:67:68:69:6a:6b:6c:6d:6e:6f:70:71:72:73:74:75:76:77:78:79:7a:7b:7c:7d:7e:7f:40";

/// SHA-256 of "abc".
const ABC: &str =
    "ba:78:16:bf:8f:01:cf:ea:41:41:40:de:5d:ae:22:23:b0:03:61:a3:96:17:7a:9c:b4:10:ff:61:f2:00:15:ad";

fn is_written(rt: &impl Abort, alloc: Global, fmt: Sha256DigestFmt, text: &str) {
    let digest = Sha256Digest::new(LETTERS);
    let written = digest.fmt(alloc, fmt).expect(rt, "no memory");
    assert_eq!(rt; written.as_str(), text);
}

#[test]
fn digests_are_written(rt: HostRuntime) {
    let alloc = rt.alloc();
    is_written(&rt, alloc, Sha256DigestFmt::BytesArray, ARRAY);
    is_written(&rt, alloc, Sha256DigestFmt::DottedHex, DOTTED);
}

/// Whether the text is read as the digest of `LETTERS`.
fn is_read(text: &str, fmt: Sha256DigestFmt) -> bool {
    match Sha256Digest::from_str_fmt(text, fmt) {
        Ok(digest) => digest == Sha256Digest::new(LETTERS),
        Err(_) => false,
    }
}

/// Whether each of the texts, in which one part is replaced, is read as the digest of `LETTERS`, or
/// none is.
fn are_read(
    rt: &impl Abort,
    alloc: Global,
    (text, fmt): (&str, Sha256DigestFmt),
    changes: &[(&str, &str)],
    read: bool,
) {
    for (part, replaced_by) in changes {
        let changed = text.replace(alloc, part, replaced_by);
        let changed = changed.expect(rt, "no memory");
        assert_eq!(rt; is_read(changed.as_str(), fmt), read, "{changed}");
    }
}

const READ_ARRAYS: [(&str, &str); 5] = [
    ("97", "97"),
    ("[", "[["),
    ("]", "]]"),
    ("97", "+097"),
    (",", " ,"),
];

const REFUSED_ARRAYS: [(&str, &str); 11] = [
    (", 64", ""),
    (", 64", ", 64, 65"),
    ("[", " ["),
    ("]", "] "),
    ("127", "256"),
    ("127", "7f"),
    ("127", "-0"),
    ("127", ""),
    (ARRAY, "invalid"),
    (ARRAY, ""),
    (ARRAY, DOTTED),
];

const READ_DOTTED: [(&str, &str); 5] = [
    ("70:", "70:"),
    ("70:", "70: "),
    ("70:", "70\u{3000}:\u{85}"),
    ("6f", "+6F"),
    ("61", "0061"),
];

const REFUSED_DOTTED: [(&str, &str); 10] = [
    (":40", ""),
    (":40", ":40:41"),
    (":40", ":40:"),
    ("61", "161"),
    ("61", "++61"),
    ("61", "6 1"),
    ("61", "6g"),
    (DOTTED, "invalid"),
    (DOTTED, ""),
    (DOTTED, ARRAY),
];

#[test]
fn digests_are_read(rt: HostRuntime) {
    let alloc = rt.alloc();
    let array = (ARRAY, Sha256DigestFmt::BytesArray);
    are_read(&rt, alloc, array, &READ_ARRAYS, true);
    are_read(&rt, alloc, array, &REFUSED_ARRAYS, false);
    let dotted = (DOTTED, Sha256DigestFmt::DottedHex);
    are_read(&rt, alloc, dotted, &READ_DOTTED, true);
    are_read(&rt, alloc, dotted, &REFUSED_DOTTED, false);
}

/// The examples of FIPS 180-4, and the empty message.
const HASHES: [(&[u8], &str); 3] = [
    (b"abc", ABC),
    (
        b"",
        "e3:b0:c4:42:98:fc:1c:14:9a:fb:f4:c8:99:6f:b9:24:27:ae:41:e4:64:9b:93:4c:a4:95:99:1b:78:52:b8:55",
    ),
    (
        b"abcdbcdecdefdefgefghfghighijhijkijkljklmklmnlmnomnopnopq",
        "24:8d:6a:61:d2:06:38:b8:e5:c0:26:93:0c:3e:60:39:a3:3c:e4:59:64:ff:21:67:f6:ec:ed:d4:19:db:06:c1",
    ),
];

#[test]
fn hashes_are_those_of_the_standard(rt: HostRuntime) {
    for (bytes, text) in HASHES {
        let hash = Sha256Digest::hash_der(bytes).to_string(rt.alloc());
        let hash = hash.expect(&rt, "no memory");
        assert_eq!(rt; hash.as_str(), text);
    }
}

/// Facts of a certificate that is valid for two weeks to the second.
const TWO_WEEKS: CertFacts = CertFacts {
    not_before: 1000,
    not_after: 1_210_600,
    key: KeyKind::Ec,
    curve: Curve::P256,
};

const LONGER: CertFacts = CertFacts {
    not_before: 1000,
    not_after: 1_210_601,
    key: KeyKind::Ec,
    curve: Curve::P256,
};

const OTHER_KEY: CertFacts = CertFacts {
    not_before: 1000,
    not_after: 2000,
    key: KeyKind::Other,
    curve: Curve::P256,
};

const OTHER_CURVE: CertFacts = CertFacts {
    not_before: 1000,
    not_after: 2000,
    key: KeyKind::Ec,
    curve: Curve::Other,
};

/// Certificates, facts and moments, and what the check of the pinned digest of `abc` answers.
const PINNED: [(&[u8], Option<CertFacts>, u64, &str); 11] = [
    (b"abc", Some(TWO_WEEKS), 1000, "Ok(())"),
    (b"abc", Some(TWO_WEEKS), 1_210_600, "Ok(())"),
    (b"abc", Some(TWO_WEEKS), 999, "Err(NotValidYet)"),
    (b"abc", Some(TWO_WEEKS), 1_210_601, "Err(Expired)"),
    (b"abd", Some(TWO_WEEKS), 1000, "Err(UnknownIssuer)"),
    (b"abc", Some(LONGER), 1000, "Err(UnknownIssuer)"),
    (b"abc", Some(OTHER_KEY), 1500, "Err(UnknownIssuer)"),
    (b"abc", Some(OTHER_CURVE), 1500, "Err(UnknownIssuer)"),
    (b"abc", None, 1000, "Err(BadEncoding)"),
    (b"abc", None, 253_402_300_799, "Err(BadEncoding)"),
    (b"abc", None, 253_402_300_800, "Err(MomentOutOfRange)"),
];

fn hashes(rt: &impl Abort, alloc: Global) -> Vec<Sha256Digest> {
    let mut hashes = Vec::new(alloc);
    let pushed = hashes.push(Sha256Digest::hash_der(b"abc"));
    pushed.expect(rt, "no memory");
    hashes
}

fn pins_are_checked(rt: &impl Abort, alloc: Global, pins: &ServerHashVerification) {
    for (der, facts, now, shown) in PINNED {
        let answer = pins.verify_facts(der, facts.as_ref(), now);
        shows(rt, alloc, answer, shown);
    }
}

#[test]
fn the_pinned_check_answers_in_its_order(rt: HostRuntime) {
    let alloc = rt.alloc();
    let builder = ClientConfig::builder()
        .with_bind_default()
        .with_server_certificate_hashes(alloc, hashes(&rt, alloc));
    let config = builder.expect(&rt, "no memory").build();
    match config.tls() {
        TlsChoice::Hashes(pins) => pins_are_checked(&rt, alloc, pins),
        _ => panic!(rt; "no pins"),
    }
}

/// A digest that is added later is pinned as one that was there from the beginning.
#[test]
fn a_pin_is_added(rt: HostRuntime) {
    let alloc = rt.alloc();
    let none = ServerHashVerification::new(alloc, Vec::new(alloc));
    let mut pins = none.expect(&rt, "no memory");
    let before = pins.verify_facts(b"abc", Some(&TWO_WEEKS), 1000);
    shows(&rt, alloc, before, "Err(UnknownIssuer)");
    let added = pins.add(Sha256Digest::hash_der(b"abc"));
    added.expect(&rt, "no memory");
    pins_are_checked(&rt, alloc, &pins);
}

/// The idle time of a server that is built with this many milliseconds.
fn idle_of(millis: Option<u128>) -> Result<IdleTimeout, InvalidIdleTimeout> {
    let builder = ServerConfig::builder()
        .with_bind_default(4433)
        .with_identity(Opaque(7));
    Ok(builder.max_idle_timeout(millis)?.build().idle())
}

#[test]
fn idle_times_end_at_2_62(rt: HostRuntime) {
    let alloc = rt.alloc();
    let greatest = 4_611_686_018_427_387_903;
    let shown = "Ok(Millis(VarInt { value: 4611686018427387903 }))";
    shows(&rt, alloc, idle_of(Some(greatest)), shown);
    let refused = "Err(idle timeout value configuration is invalid)";
    shows(&rt, alloc, idle_of(Some(greatest + 1)), refused);
    shows(&rt, alloc, idle_of(None), "Ok(Infinite)");
}

const HOME: Addr = Addr::V4 {
    ip: 0x7f00_0001,
    port: 443,
};

/// Knows one host.
#[derive(Drop)]
struct OneHost(Addr);

impl DnsResolver for OneHost {
    ghost use Rattle.std.specs.Prelude.{ℕ, List, bytes_eq, codes, if◌then◌else◌};
    ghost use Rattle.wt_wire.specs.declared.lookup.Lookup.TheVariants.{Found, NotFound};

    ghost lookup_of = { λ known host. if bytes_eq host (codes "h:443") then Found known.0 else NotFound };

    fn resolve(&self, _alloc: Global, host: &str) -> Result<Lookup, OutOfMemory> {
        if host.as_bytes() == b"h:443".as_slice() {
            Ok(Lookup::Found(self.0))
        } else {
            Ok(Lookup::NotFound)
        }
    }
}

fn finds(rt: &impl Abort, alloc: Global, config: &ClientConfig, host: &str, found: Option<Lookup>) {
    let answer = config.lookup(alloc, host).expect(rt, "no memory");
    assert_eq!(rt; answer, found);
}

#[test]
fn a_client_asks_its_resolver(rt: HostRuntime) {
    let alloc = rt.alloc();
    let resolver = Box::new(alloc, OneHost(HOME)).expect(&rt, "no memory");
    let mut config = ClientConfig::default();
    finds(&rt, alloc, &config, "h:443", None);
    config.set_dns_resolver(resolver);
    finds(&rt, alloc, &config, "h:443", Some(Lookup::Found(HOME)));
    finds(&rt, alloc, &config, "i:443", Some(Lookup::NotFound));
}
