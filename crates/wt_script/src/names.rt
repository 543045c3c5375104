//! The words of printed lines, each once: printing and reading go by them alone.

pub(crate) const DONE: &str = "done";

pub(crate) const PENDING: &str = "pending";

pub(crate) const NO_SESSION: &str = "no_session";

pub(crate) const NO_STREAM: &str = "no_stream";

pub(crate) const REQUEST: &str = "request";

pub(crate) const SESSION: &str = "session";

pub(crate) const REJECTED: &str = "rejected";

pub(crate) const UNI: &str = "uni";

pub(crate) const BI: &str = "bi";

pub(crate) const OPENING: &str = "opening";

pub(crate) const SEND_READY: &str = "send_ready";

pub(crate) const BI_READY: &str = "bi_ready";

pub(crate) const ID: &str = "id";

pub(crate) const DATAGRAM: &str = "datagram";

pub(crate) const SIZE: &str = "size";

pub(crate) const WRITTEN: &str = "written";

pub(crate) const ALL_WRITTEN: &str = "all_written";

pub(crate) const COUNT: &str = "count";

pub(crate) const FINISHED: &str = "finished";

pub(crate) const PRIORITY: &str = "priority";

pub(crate) const CLOSED_STREAM: &str = "closed_stream";

pub(crate) const READ: &str = "read";

pub(crate) const END: &str = "end";

pub(crate) const EXACT: &str = "exact";

pub(crate) const FAILED: &str = "failed";

pub(crate) const CLOSED: &str = "closed";

pub(crate) const CONNECT_FAILED: &str = "connect_failed";

pub(crate) const OPENING_FAILED: &str = "opening_failed";

pub(crate) const WRITE_FAILED: &str = "write_failed";

pub(crate) const STOPPED_BY: &str = "stopped_by";

pub(crate) const READ_FAILED: &str = "read_failed";

pub(crate) const EXACT_FAILED: &str = "exact_failed";

pub(crate) const DATAGRAM_FAILED: &str = "datagram_failed";

// How a connection ended.
pub(crate) const CONNECTION_CLOSED: &str = "connection_closed";

pub(crate) const APPLICATION_CLOSED: &str = "application_closed";

pub(crate) const LOCALLY_CLOSED: &str = "locally_closed";

pub(crate) const LOCAL_H3: &str = "local_h3";

pub(crate) const TIMED_OUT: &str = "timed_out";

pub(crate) const QUIC_PROTO: &str = "quic_proto";

pub(crate) const CIDS_EXHAUSTED: &str = "cids_exhausted";

// Why a connect failed.
pub(crate) const INVALID_URL: &str = "invalid_url";

pub(crate) const PARSE: &str = "parse";

pub(crate) const SCHEME: &str = "scheme";

pub(crate) const DNS_LOOKUP: &str = "dns_lookup";

pub(crate) const DNS_NOT_FOUND: &str = "dns_not_found";

pub(crate) const CONNECTION: &str = "connection";

pub(crate) const SESSION_REJECTED: &str = "session_rejected";

pub(crate) const RESERVED_HEADER: &str = "reserved_header";

pub(crate) const ENDPOINT_STOPPING: &str = "endpoint_stopping";

pub(crate) const INVALID_SERVER_NAME: &str = "invalid_server_name";

pub(crate) const INVALID_REMOTE_ADDRESS: &str = "invalid_remote_address";

// Why a call on a stream, or a datagram, failed.
pub(crate) const NOT_CONNECTED: &str = "not_connected";

pub(crate) const REFUSED: &str = "refused";

pub(crate) const STOPPED: &str = "stopped";

pub(crate) const RESET: &str = "reset";

pub(crate) const FINISHED_EARLY: &str = "finished_early";

pub(crate) const UNSUPPORTED: &str = "unsupported";

pub(crate) const TOO_LARGE: &str = "too_large";

pub(crate) const DISABLED: &str = "disabled";

// Actions; a reset has the word of the error that tells one.
pub(crate) const DIAL: &str = "dial";

pub(crate) const OPENED: &str = "opened";

pub(crate) const SEND: &str = "send";

pub(crate) const FINISH: &str = "finish";

pub(crate) const STOP: &str = "stop";

pub(crate) const DATAGRAM_OUT: &str = "datagram_out";

pub(crate) const CLOSE: &str = "close";

/// In the place of a number, where there is none.
pub(crate) const NONE: &str = "none";
