//! The input of the program.
ghost use Rattle.std.specs.Prelude.{◌≡◌, ◌+◌, ◌≤◌, ◌≢◌, Err, IfOk, length};
ghost use Rattle.std.specs.Io.KnownBytes.{Consumes, IsAtEnd};
ghost use Rattle.wt_trace.specs.Outside.{Rose};
ghost use Rattle.wt_trace.specs.Input.{ReadsFew, script_limit};
ghost use Rattle.wt_trace.specs.declared.cut_short.CutShort.TheVariants as cuts;

use crate::cut_short::CutShort;
use crate::outside::Source;
use std::alloc::Global;

/// The greatest script, in bytes.
pub const SCRIPT_LIMIT: usize = 16_777_216;

/// All bytes that the source has left, or one more than a script may have.
///
/// # Errors
///
/// `SourceFailed` where the source failed, `OutOfMemory` where the bytes found no memory.
pub fn read_input<S: Source>(alloc: Global, source: &mut S) -> Result<Vec<u8>, CutShort>
    ensures bytes { IfOk result (λ v. Consumes (S.left source.old) (S.left source.new) v.items) }
    ensures few { IfOk result (λ v. length v.items ≤ script_limit + 1) }
    ensures reads { ReadsFew (S.left source.old) (S.left source.new) }
    ensures end { IfOk result (λ v. length v.items ≤ script_limit → IsAtEnd (S.left source.new)) }
    ensures same { result ≢ Err cuts.SourceFailed → S.faults source.new ≡ S.faults source.old }
    ensures fault { result ≡ Err cuts.SourceFailed → Rose (S.faults source.old) (S.faults source.new) }
    ensures causes { result ≢ Err cuts.SinkFailed }
{
    let mut bytes: Vec<u8> = Vec::new(alloc);
    let mut buffer = [0u8; 8192];
    while bytes.len() <= SCRIPT_LIMIT {
        let room = (SCRIPT_LIMIT + 1 - bytes.len()).min(buffer.len());
        match source.read(&mut buffer[..room]) {
            Ok(0) => return Ok(bytes),
            Ok(count) => {
                if bytes.extend_from_slice(&buffer[..count]).is_err() {
                    return Err(CutShort::OutOfMemory);
                }
            }
            Err(_) => return Err(CutShort::SourceFailed),
        }
    }
    Ok(bytes)
}
