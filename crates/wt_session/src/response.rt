//! The frame of a response that accepts (RFC 9114, section 7.2.2).
ghost use Rattle.std.specs.Prelude.{◌≡◌, IfOk, codes};
ghost use Rattle.wt_sessions.specs.Handshake.{response_head};
ghost use Rattle.wt_wire.specs.FrameBytes.{frame_bytes};

use std::alloc::Global;
use wt_wire::error::OutOfMemory;
use wt_wire::frame::Frame;
use wt_wire::header_list::HeaderList;
use wt_wire::headers::Headers;

/// The fields of a list.
#[tactic(auto, using(std::proofs::lemmas::List::take_all))]
fn fields_of(alloc: Global, list: &HeaderList) -> Result<Headers, OutOfMemory>
    ensures { IfOk result (λ fields. fields ≡ list.now) }
{
    let mut fields = Headers::new(alloc);
    for index in 0..list.len() {
        let (name, value) = list.at(index);
        fields.insert(name, value)?;
    }
    Ok(fields)
}

/// The frame of a response of status 200 with these fields; a `:status` among them is left out.
pub(crate) fn acceptance_frame(alloc: Global, headers: &HeaderList) -> Result<Frame, OutOfMemory>
    ensures { IfOk result (λ frame. frame_bytes frame ≡ response_head (codes "200") headers.now) }
{
    let mut fields = fields_of(alloc, headers)?;
    fields.insert(":status", "200")?;
    fields.generate_frame()
}
