//! The printed lines of answers.
//!
//! A line is the reply, then for each action ` ; ` and the action. Bytes and texts are lower-case
//! hexadecimal, `-` for none; codes and ids are decimal.
ghost use Rattle.std.specs.Prelude.{◌≡◌, ◌++◌, IfOk, OnOk, Option, ℕ, codes, string_bytes};
ghost use Rattle.std.specs.Fmt.{decimal, signed_decimal};
ghost use Rattle.std.specs.List.{flat_map};
ghost use Rattle.wt_script.specs.Print.{action_text, answer_text, dial_text, field_text, joined, next_action_text, read_text, reply_text, request_text, sends_nothing, sends_on, text_after};
ghost use Rattle.wt_script.specs.PrintErrors.{code_text, connecting_text, datagram_text, exact_text, opening_text, read_error_text, write_text};

mod errors;
mod texts;

use crate::names;
use crate::print::errors::{
    push_connecting, push_datagram, push_ended, push_exact, push_opening, push_read_error,
    push_write,
};
use crate::print::texts::{
    push_address, push_bytes, push_coded, push_digits, push_named_piece, push_numbered,
    push_optional, push_signed, push_text, push_two_numbers, push_word,
};
use std::alloc::Global;
use wt_turn::action::Action;
use wt_turn::answer::Answer;
use wt_turn::connecting_error::ConnectingError;
use wt_turn::piece::Piece;
use wt_turn::reply::Reply;
use wt_turn::stream_error::{
    SendDatagramError, StreamOpeningError, StreamReadError, StreamReadExactError, StreamWriteError,
};
use wt_wire::addr::Addr;
use wt_wire::error::OutOfMemory;
use wt_wire::header_list::HeaderList;
use wt_wire::ids::{SessionId, StreamId};
use wt_wire::text::Text;

/// The line of an answer, without its line feed.
pub fn print_answer(alloc: Global, answer: &Answer) -> Result<Text, OutOfMemory>
    ensures { IfOk result (λ text. text ≡ answer_text answer.now) }
{
    let mut line = String::new(alloc);
    push_answer(alloc, &mut line, answer)?;
    Ok(Text::from_string(line))
}

/// Adds the line of an answer, without its line feed. The error is that memory ran out, and what was
/// added then is open.
pub fn push_answer(alloc: Global, out: &mut String, answer: &Answer) -> Result<(), OutOfMemory>
    ensures { OnOk result (string_bytes out.new ≡ string_bytes out.old ++ answer_text answer.now) }
{
    push_reply(alloc, out, &answer.reply)?;
    push_actions(alloc, out, answer.actions.as_slice())
}

fn push_field(alloc: Global, out: &mut String, name: &str, value: &str) -> Result<(), OutOfMemory>
    ensures { OnOk result (string_bytes out.new ≡ string_bytes out.old ++ field_text (name.now, value.now)) }
{
    push_text(out, " ")?;
    push_digits(alloc, out, name.as_bytes())?;
    push_text(out, "=")?;
    push_digits(alloc, out, value.as_bytes())
}

fn push_fields(alloc: Global, out: &mut String, headers: &HeaderList) -> Result<(), OutOfMemory>
    ensures { OnOk result (string_bytes out.new ≡ string_bytes out.old ++ flat_map field_text headers.now) }
{
    for index in 0..headers.len() {
        let (name, value) = headers.at(index);
        push_field(alloc, out, name, value)?;
    }
    Ok(())
}

fn push_request(
    alloc: Global,
    out: &mut String,
    word: &str,
    id: SessionId,
    headers: &HeaderList,
) -> Result<(), OutOfMemory>
    ensures { OnOk result (string_bytes out.new ≡ string_bytes out.old ++ (word.now ++ codes " " ++ request_text id headers.now)) }
{
    push_session(out, word, id)?;
    push_fields(alloc, out, headers)
}

fn push_session(out: &mut String, word: &str, id: SessionId) -> Result<(), OutOfMemory>
    ensures { OnOk result (string_bytes out.new ≡ string_bytes out.old ++ (word.now ++ codes " " ++ decimal id)) }
{
    push_numbered(out, word, id.session_stream().into_u64())
}

fn push_stream(out: &mut String, word: &str, id: StreamId) -> Result<(), OutOfMemory>
    ensures { OnOk result (string_bytes out.new ≡ string_bytes out.old ++ (word.now ++ codes " " ++ decimal id)) }
{
    push_numbered(out, word, id.into_u64())
}

fn push_read(alloc: Global, out: &mut String, read: &Option<Piece>) -> Result<(), OutOfMemory>
    ensures { OnOk result (string_bytes out.new ≡ string_bytes out.old ++ read_text read.now) }
{
    match read {
        None => push_text(out, names::END),
        Some(piece) => push_named_piece(alloc, out, names::READ, piece),
    }
}

fn push_connect_failed(
    alloc: Global,
    out: &mut String,
    word: &str,
    error: &ConnectingError,
) -> Result<(), OutOfMemory>
    ensures { OnOk result (string_bytes out.new ≡ string_bytes out.old ++ (word.now ++ codes " " ++ connecting_text error.now)) }
{
    push_word(out, word)?;
    push_connecting(alloc, out, error)
}

fn push_opening_failed(
    out: &mut String,
    word: &str,
    error: StreamOpeningError,
) -> Result<(), OutOfMemory>
    ensures { OnOk result (string_bytes out.new ≡ string_bytes out.old ++ (word.now ++ codes " " ++ opening_text error)) }
{
    push_word(out, word)?;
    push_opening(out, error)
}

fn push_write_failed(
    out: &mut String,
    word: &str,
    error: StreamWriteError,
) -> Result<(), OutOfMemory>
    ensures { OnOk result (string_bytes out.new ≡ string_bytes out.old ++ (word.now ++ codes " " ++ write_text error)) }
{
    push_word(out, word)?;
    push_write(out, error)
}

fn push_read_failed(out: &mut String, word: &str, error: StreamReadError) -> Result<(), OutOfMemory>
    ensures { OnOk result (string_bytes out.new ≡ string_bytes out.old ++ (word.now ++ codes " " ++ read_error_text error)) }
{
    push_word(out, word)?;
    push_read_error(out, error)
}

fn push_exact_failed(
    alloc: Global,
    out: &mut String,
    word: &str,
    error: StreamReadExactError,
    piece: &Piece,
) -> Result<(), OutOfMemory>
    ensures { OnOk result (string_bytes out.new ≡ string_bytes out.old ++ (word.now ++ codes " " ++ exact_text error piece.now)) }
{
    push_word(out, word)?;
    push_exact(alloc, out, error, piece)
}

fn push_datagram_failed(
    out: &mut String,
    word: &str,
    error: SendDatagramError,
) -> Result<(), OutOfMemory>
    ensures { OnOk result (string_bytes out.new ≡ string_bytes out.old ++ (word.now ++ codes " " ++ datagram_text error)) }
{
    push_word(out, word)?;
    push_datagram(out, error)
}

fn push_size(out: &mut String, word: &str, size: Option<u64>) -> Result<(), OutOfMemory>
    ensures { OnOk result (string_bytes out.new ≡ string_bytes out.old ++ (word.now ++ codes " " ++ code_text size)) }
{
    push_word(out, word)?;
    push_optional(out, size)
}

fn push_priority(out: &mut String, word: &str, priority: i32) -> Result<(), OutOfMemory>
    ensures { OnOk result (string_bytes out.new ≡ string_bytes out.old ++ (word.now ++ codes " " ++ signed_decimal priority)) }
{
    push_word(out, word)?;
    push_signed(out, priority)
}

fn push_reply(alloc: Global, out: &mut String, reply: &Reply) -> Result<(), OutOfMemory>
    ensures { OnOk result (string_bytes out.new ≡ string_bytes out.old ++ reply_text reply.now) }
{
    match reply {
        Reply::Done => push_text(out, names::DONE),
        Reply::Pending => push_text(out, names::PENDING),
        Reply::NoSession => push_text(out, names::NO_SESSION),
        Reply::NoStream => push_text(out, names::NO_STREAM),
        Reply::Request { id, headers } => push_request(alloc, out, names::REQUEST, *id, headers),
        Reply::Session(id) => push_session(out, names::SESSION, *id),
        Reply::Rejected => push_text(out, names::REJECTED),
        Reply::Uni(id) => push_stream(out, names::UNI, *id),
        Reply::Bi(id) => push_stream(out, names::BI, *id),
        Reply::Opening(id) => push_stream(out, names::OPENING, *id),
        Reply::SendReady(id) => push_stream(out, names::SEND_READY, *id),
        Reply::BiReady(id) => push_stream(out, names::BI_READY, *id),
        Reply::Id(id) => push_session(out, names::ID, *id),
        Reply::Datagram(piece) => push_named_piece(alloc, out, names::DATAGRAM, piece),
        Reply::Size(size) => push_size(out, names::SIZE, *size),
        Reply::Written(count) => push_numbered(out, names::WRITTEN, *count),
        Reply::AllWritten => push_text(out, names::ALL_WRITTEN),
        Reply::Count(count) => push_numbered(out, names::COUNT, *count),
        Reply::Finished => push_text(out, names::FINISHED),
        Reply::Priority(priority) => push_priority(out, names::PRIORITY, *priority),
        Reply::ClosedStream => push_text(out, names::CLOSED_STREAM),
        Reply::Read(read) => push_read(alloc, out, read),
        Reply::Exact(piece) => push_named_piece(alloc, out, names::EXACT, piece),
        Reply::Failed(error) => push_ended(alloc, out, names::FAILED, error),
        Reply::Closed(error) => push_ended(alloc, out, names::CLOSED, error),
        Reply::ConnectFailed(error) => push_connect_failed(
            alloc,
            out,
            names::CONNECT_FAILED,
            error,
        ),
        Reply::OpeningFailed(error) => push_opening_failed(out, names::OPENING_FAILED, *error),
        Reply::WriteFailed(error) => push_write_failed(out, names::WRITE_FAILED, *error),
        Reply::StoppedBy(error) => push_write_failed(out, names::STOPPED_BY, *error),
        Reply::ReadFailed(error) => push_read_failed(out, names::READ_FAILED, *error),
        Reply::ExactFailed(error, piece) => push_exact_failed(
            alloc,
            out,
            names::EXACT_FAILED,
            *error,
            piece,
        ),
        Reply::DatagramFailed(error) => push_datagram_failed(out, names::DATAGRAM_FAILED, *error),
    }
}

fn push_dial(
    alloc: Global,
    out: &mut String,
    word: &str,
    address: Addr,
    name: &Text,
) -> Result<(), OutOfMemory>
    ensures { OnOk result (string_bytes out.new ≡ string_bytes out.old ++ (word.now ++ codes " " ++ dial_text address name.now)) }
{
    push_word(out, word)?;
    push_address(alloc, out, address)?;
    push_text(out, " ")?;
    push_bytes(alloc, out, name.as_str().as_bytes())
}

fn push_action(alloc: Global, out: &mut String, action: &Action) -> Result<(), OutOfMemory>
    ensures { OnOk result (string_bytes out.new ≡ string_bytes out.old ++ action_text action.now) }
{
    match action {
        Action::Dial { address, name } => push_dial(alloc, out, names::DIAL, *address, name),
        Action::Opened { id } => push_stream(out, names::OPENED, *id),
        Action::Send { id, piece } => {
            push_coded(alloc, out, names::SEND, id.into_u64(), piece.as_slice())
        }
        Action::Finish { id } => push_stream(out, names::FINISH, *id),
        Action::ResetOut { id, code } => {
            push_two_numbers(out, names::RESET, id.into_u64(), code.into_inner())
        }
        Action::StopOut { id, code } => {
            push_two_numbers(out, names::STOP, id.into_u64(), code.into_inner())
        }
        Action::DatagramOut { piece } => {
            push_named_piece(alloc, out, names::DATAGRAM_OUT, piece)
        }
        Action::Close { code, reason } => {
            push_coded(
                alloc,
                out,
                names::CLOSE,
                code.into_inner(),
                reason.as_slice(),
            )
        }
    }
}

/// The stream on which the action sends.
fn sends_on(action: &Action) -> Option<StreamId>
    ensures { result ≡ sends_on action.now }
{
    match action {
        Action::Send { id, piece: _ } => Some(*id),
        _ => None,
    }
}

/// Adds an action after one that sends on this stream, where that sends: it goes on with a send on the same stream.
fn push_next(
    alloc: Global,
    out: &mut String,
    sending: Option<StreamId>,
    action: &Action,
) -> Result<(), OutOfMemory>
    ensures { OnOk result (string_bytes out.new ≡ string_bytes out.old ++ text_after sending action.now) }
{
    match (sending, action) {
        (Some(before), Action::Send { id, piece }) if before == *id => {
            push_digits(alloc, out, piece.as_slice())
        }
        _ => {
            push_text(out, " ; ")?;
            push_action(alloc, out, action)
        }
    }
}

/// Whether the action sends no bytes.
fn sends_nothing(action: &Action) -> bool
    ensures { result ≡ sends_nothing action.now }
{
    match action {
        Action::Send { id: _, piece } => piece.as_slice().is_empty(),
        _ => false,
    }
}

/// Adds the actions. A send of no bytes is left out, and neighbouring sends on one stream are one.
#[tactic(auto, using(crate::proofs::JoinedLaws::joined_text))]
fn push_actions(alloc: Global, out: &mut String, actions: &[Action]) -> Result<(), OutOfMemory>
    ensures { OnOk result (string_bytes out.new ≡ string_bytes out.old ++ flat_map next_action_text (joined actions.now)) }
{
    let mut sending = None;
    for action in actions {
        if !sends_nothing(action) {
            push_next(alloc, out, sending, action)?;
            sending = sends_on(action);
        }
    }
    Ok(())
}
