//! What this side sends first on its control stream.
ghost use Rattle.std.specs.Prelude.{◌≡◌, IfOk};
ghost use Rattle.wt_message.specs.FixedBytes.{local_control_bytes};

use crate::stream_header::StreamHeader;
use std::alloc::Global;
use wt_message::settings::Settings;
use wt_wire::error::OutOfMemory;

/// What this side's control stream begins with: its type, and the frame of its settings
/// (RFC 9114, section 6.2.1).
pub fn control_stream_head(alloc: Global) -> Result<Vec<u8>, OutOfMemory>
    ensures { IfOk result (λ bytes. bytes.items ≡ local_control_bytes) }
{
    let mut out = Vec::new(alloc);
    // SETTINGS are the first frame, and go out before anything of the peer's is awaited (RFC 9114, section
    // 7.2.4.2).
    StreamHeader::new_control().write(&mut out)?;
    let frame = Settings::local().generate_frame(alloc)?;
    frame.write(&mut out)?;
    Ok(out)
}
