//! The frames of a request and of an acceptance.

use std::alloc::Global;
use wt_message::session::{SessionRequest, SessionResponse};
use wt_session::connect_target::connect_target;
use wt_wire::addr::Addr;
use wt_wire::error::OutOfMemory;
use wt_wire::frame::Frame;
use wt_wire::header_list::HeaderList;
use wt_wire::lookup::{ConnectOutcome, Lookup};
use wt_wire::text::Text;

fn bytes_of(alloc: Global, frame: &Frame) -> Result<Vec<u8>, OutOfMemory> {
    let mut bytes = Vec::new(alloc);
    frame.write(&mut bytes)?;
    Ok(bytes)
}

/// The frame of status 200 with these headers.
pub fn acceptance_frame(alloc: Global, headers: &HeaderList) -> Result<Vec<u8>, OutOfMemory> {
    let mut response = SessionResponse::ok(alloc)?;
    for index in 0..headers.len() {
        let (name, value) = headers.at(index);
        response.add(name, value)?;
    }
    bytes_of(alloc, &response.generate_frame()?)
}

/// The frame of the request of a connect, by its URL and its headers; None where the URL is refused, or a header has a name that only the
/// session layer sets.
pub fn request_frame(
    alloc: Global,
    options: &(Text, HeaderList),
) -> Result<Option<Vec<u8>>, OutOfMemory> {
    // A request says nothing of the address.
    let anywhere = Lookup::Found(Addr::V4 { ip: 0, port: 0 });
    let url = options.0.as_str();
    let target = match connect_target(alloc, url, anywhere, ConnectOutcome::Proceed)? {
        Ok(target) => target,
        Err(_) => return Ok(None),
    };
    let mut request = SessionRequest::new(alloc, target.authority.as_str(), target.path.as_str())?;
    for index in 0..options.1.len() {
        let (name, value) = options.1.at(index);
        if request.insert(name, value)?.is_err() {
            return Ok(None);
        }
    }
    Ok(Some(bytes_of(alloc, &request.generate_frame()?)?))
}
