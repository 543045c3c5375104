//! HEADERS frames (RFC 9114, section 7.2.2).
ghost use Rattle.std.specs.Prelude.{◌≡◌, [], IfErr, IfOk, OnOk, OnErr, Ok, Err, None};
ghost use Rattle.std.specs.Option.{option_copied};
ghost use Rattle.wt_wire.specs.FieldSection.{AreShort, headers_of, section_bytes};
ghost use Rattle.wt_wire.specs.HeaderList.{IsHeaderList, value_of, with_field};
ghost use Rattle.wt_wire.specs.declared.error.ErrorCode.TheVariants as errors;
ghost use Rattle.wt_wire.specs.declared.frame.FrameKind.TheVariants as kinds;

use crate::error::{ErrorCode, OutOfMemory};
use crate::field_section::{read_section, write_section};
use crate::frame::Frame;
use crate::header_list::HeaderList;
use std::alloc::Global;
use std::marker::Model;

/// The fields of a HEADERS frame (RFC 9114, section 7.2.2).
#[derive(Debug, Drop)]
pub struct Headers {
    list: HeaderList,
}

impl Model for Headers {
    ghost use Rattle.std.specs.Prelude.{List, ℕ};

    ghost Value = { List (List ℕ × List ℕ) };

    ghost view = { λ h. h.list };
}

impl Headers {
    /// No fields.
    pub fn new(alloc: Global) -> Headers
        ensures { result ≡ [] }
    {
        Headers {
            list: HeaderList::new(alloc),
        }
    }

    /// Headers with the same fields.
    ///
    /// # Errors
    ///
    /// `OutOfMemory` where they found no memory.
    pub fn copy(&self) -> Result<Headers, OutOfMemory>
        ensures { IfOk result (λ h. h ≡ self.now) }
    {
        Ok(Headers {
            list: self.list.copy()?,
        })
    }

    /// Reads the frame's payload as a field section. The error is `Decompression`, where it isn't
    /// one of literal field lines with literal names (RFC 9204, section 4.5).
    pub fn with_frame(
        alloc: Global,
        frame: &Frame,
    ) -> Result<Result<Headers, ErrorCode>, OutOfMemory>
        ensures headers { IfOk result (λ r. r ≡ headers_of frame.now.payload) }
        ensures error { IfOk result (λ r. IfErr r (λ e. e ≡ errors.Decompression)) }
    {
        Headers::with_payload(alloc, frame.payload())
    }

    /// Reads the payload of a HEADERS frame as a field section, as `with_frame` does of a frame. The
    /// error is `Decompression`.
    pub fn with_payload(
        alloc: Global,
        payload: &[u8],
    ) -> Result<Result<Headers, ErrorCode>, OutOfMemory>
        ensures headers { IfOk result (λ r. r ≡ headers_of payload.now) }
        ensures error { IfOk result (λ r. IfErr r (λ e. e ≡ errors.Decompression)) }
    {
        match read_section(alloc, payload)? {
            Some(list) => Ok(Ok(Headers { list })),
            None => Ok(Err(ErrorCode::Decompression)),
        }
    }

    fn section(&self) -> Result<Vec<u8>, OutOfMemory>
        ensures bytes { IfOk result (λ v. v.items ≡ section_bytes self.now) }
        ensures ordered { IsHeaderList self.now }
    {
        // For the proof alone: the call says that the list is in order.
        let _length = self.list.len();
        write_section(&self.list)
    }

    /// A HEADERS frame whose payload is these fields, a literal field line each, in the order of
    /// `HeaderList`.
    #[tactic(auto, using(crate::proofs::SectionAgain::headers_again))]
    pub fn generate_frame(&self) -> Result<Frame, OutOfMemory>
        ensures frame { IfOk result (λ f. f ≡ record { kind = kinds.Headers; payload = section_bytes self.now; session = None }) }
        ensures again { AreShort self.now → IfOk result (λ f. headers_of f.payload ≡ Ok self.now) }
    {
        Ok(Frame::of_headers(self.section()?))
    }

    /// The value of the field with this name; `None` exactly where there is none.
    pub fn get(&self, name: &str) -> Option<&str>
        ensures { option_copied result ≡ value_of name.now self.now }
    {
        self.list.get(name)
    }

    /// Puts a field, in place of the one with an equal name. Where memory is short, nothing changes.
    pub fn insert(&mut self, name: &str, value: &str) -> Result<(), OutOfMemory>
        ensures ok { OnOk result (self.new ≡ with_field name.now value.now self.old) }
        ensures err { OnErr result (self.new ≡ self.old) }
    {
        self.list.set(name, value)
    }

    /// The fields in their order.
    pub fn list(&self) -> &HeaderList
        ensures { result.now ≡ self.now }
    {
        &self.list
    }
}
