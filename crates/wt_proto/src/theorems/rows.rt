//! What the definitions say of bytes that come from outside: worked rows, each a function whose
//! contract is the answers.
#![tactic(auto, unfolding(wt_wire::specs::Varint::varint_at, wt_wire::specs::Varint::varint_bytes, crate::specs::Uni::uni_verdict_of, wt_wire::specs::Frames::frame_at, crate::specs::Bi::bi_decides, crate::specs::Bi::bi_verdict_of, crate::specs::ControlWalk::control_decides, crate::specs::ControlWalk::control_walk_of, crate::specs::SessionWalk::capsule_decides, crate::specs::SessionWalk::session_decides, crate::specs::SessionWalk::session_walk_of, crate::specs::ResponseWalk::response_decides, crate::specs::ResponseWalk::response_walk_of, wt_message::specs::Settings::pairs_from, wt_message::specs::SettingPair::pair_at, wt_message::specs::Settings::with_pair, wt_wire::specs::PrefixedInteger::prefixed_at, wt_wire::specs::PrefixedInteger::prefixed_bytes, wt_wire::specs::PrefixedInteger::continuation_at, wt_wire::specs::FieldSection::string_at, wt_wire::specs::FieldSection::line_at, wt_wire::specs::FieldSection::field_lines_from, wt_wire::specs::Utf8::is_text_from, wt_message::specs::Requests::request_of, wt_message::specs::Responses::response_of))]

ghost use Rattle.std.specs.Prelude.{◌≡◌, ◌∷◌, [], Some, None, codes};
ghost use Rattle.wt_proto.specs.Bi.{bi_verdict_of};
ghost use Rattle.wt_proto.specs.ControlWalk.{control_walk_of};
ghost use Rattle.wt_message.specs.FixedBytes.{headers_frame_bytes, response_bytes};
ghost use Rattle.wt_message.specs.Requests.{request_fields};
ghost use Rattle.wt_proto.specs.ResponseWalk.{response_walk_of};
ghost use Rattle.wt_message.specs.Responses.{status_fields};
ghost use Rattle.wt_proto.specs.SessionWalk.{session_walk_of};
ghost use Rattle.wt_message.specs.Settings.{no_settings};
ghost use Rattle.wt_proto.specs.Uni.{uni_verdict_of};
ghost use Rattle.wt_wire.specs.declared.error.ErrorCode.TheVariants as errors;
ghost use Rattle.wt_proto.specs.declared.response_walk.ResponseWalk.TheVariants as responses;
ghost use Rattle.wt_proto.specs.declared.session_walk.SessionWalk.TheVariants as sessions;
ghost use Rattle.wt_wire.specs.declared.side.StreamEnd.TheVariants.{Running, Fin};
ghost use Rattle.wt_proto.specs.declared.verdict.Verdict.TheVariants as verdicts;

/// Verdicts of unidirectional streams.
pub fn uni_rows()
    ensures incomplete { uni_verdict_of (0x40 ∷ []) Running ≡ verdicts.Incomplete }
    ensures cut_by_end { uni_verdict_of (0x40 ∷ []) Fin ≡ verdicts.Dropped }
    ensures session { uni_verdict_of (0x40 ∷ 0x54 ∷ 0x00 ∷ []) Running ≡ verdicts.WebTransport 0 3 }
    ensures no_session { uni_verdict_of (0x40 ∷ 0x54 ∷ 0x01 ∷ []) Running ≡ verdicts.Fault errors.Id }
    ensures encoder { uni_verdict_of (0x02 ∷ []) Running ≡ verdicts.Encoder 1 }
    ensures reserved { uni_verdict_of (0x21 ∷ []) Running ≡ verdicts.Dropped }
{}

/// Verdicts of bidirectional streams.
pub fn bi_rows()
    ensures session { bi_verdict_of (0x21 ∷ 0x00 ∷ 0x40 ∷ 0x41 ∷ 0x00 ∷ []) Running ≡ verdicts.WebTransport 0 5 }
    ensures request { bi_verdict_of (headers_frame_bytes (request_fields (codes "h") (codes "/"))) Running ≡ verdicts.Request (request_fields (codes "h") (codes "/")) 83 }
    ensures second_request { bi_verdict_of (headers_frame_bytes (request_fields (codes "h:4433") (codes "/p?q"))) Running ≡ verdicts.Request (request_fields (codes "h:4433") (codes "/p?q")) 91 }
    ensures data_frame { bi_verdict_of (0x00 ∷ 0x00 ∷ []) Running ≡ verdicts.Fault errors.FrameUnexpected }
{}

/// Walks over control streams.
pub fn control_rows()
    ensures settings { control_walk_of (0x04 ∷ 0x00 ∷ []) Running ≡ record { settings = Some no_settings; fault = None } }
    ensures ended { control_walk_of (0x04 ∷ 0x00 ∷ []) Fin ≡ record { settings = Some no_settings; fault = Some errors.ClosedCriticalStream } }
    ensures cut_pair { control_walk_of (0x04 ∷ 0x01 ∷ 0x00 ∷ []) Running ≡ record { settings = None; fault = Some errors.Frame } }
    ensures exercise { control_walk_of (0x21 ∷ 0x01 ∷ 0x00 ∷ []) Running ≡ record { settings = None; fault = Some errors.MissingSettings } }
    ensures signal { control_walk_of (0x40 ∷ 0x41 ∷ []) Running ≡ record { settings = None; fault = Some errors.FrameUnexpected } }
{}

/// Walks over session streams.
pub fn session_rows()
    ensures closed { session_walk_of (0x00 ∷ 0x0a ∷ 0x68 ∷ 0x43 ∷ 0x07 ∷ 0x00 ∷ 0x00 ∷ 0x00 ∷ 0x07 ∷ 0x62 ∷ 0x79 ∷ 0x65 ∷ []) Running ≡ sessions.Closed 7 (codes "bye") }
    ensures ended { session_walk_of (0x21 ∷ 0x00 ∷ []) Fin ≡ sessions.Closed 0 [] }
    ensures incomplete { session_walk_of (0x21 ∷ []) Fin ≡ sessions.Fault errors.ClosedCriticalStream }
{}

/// Capsules over the payloads of DATA frames.
pub fn capsules_stand_over_data()
    ensures cut_anywhere { session_walk_of (0x00 ∷ 0x03 ∷ 0x68 ∷ 0x43 ∷ 0x07 ∷ 0x00 ∷ 0x07 ∷ 0x00 ∷ 0x00 ∷ 0x00 ∷ 0x07 ∷ 0x62 ∷ 0x79 ∷ 0x65 ∷ []) Running ≡ sessions.Closed 7 (codes "bye") }
    ensures after_another { session_walk_of (0x00 ∷ 0x0c ∷ 0x00 ∷ 0x00 ∷ 0x68 ∷ 0x43 ∷ 0x07 ∷ 0x00 ∷ 0x00 ∷ 0x00 ∷ 0x07 ∷ 0x62 ∷ 0x79 ∷ 0x65 ∷ []) Running ≡ sessions.Closed 7 (codes "bye") }
    ensures not_whole { session_walk_of (0x00 ∷ 0x03 ∷ 0x68 ∷ 0x43 ∷ 0x07 ∷ []) Running ≡ sessions.Running }
    ensures end_inside { session_walk_of (0x00 ∷ 0x03 ∷ 0x68 ∷ 0x43 ∷ 0x07 ∷ []) Fin ≡ sessions.Fault errors.Message }
    ensures end_inside_a_frame { session_walk_of (0x00 ∷ 0x04 ∷ 0x68 ∷ 0x43 ∷ []) Fin ≡ sessions.Fault errors.ClosedCriticalStream }
    ensures end_between { session_walk_of [] Fin ≡ sessions.Closed 0 [] }
    ensures of_any_length { session_walk_of (0x00 ∷ 0x50 ∷ 0x01 ∷ []) Running ≡ sessions.Running }
    ensures too_short { session_walk_of (0x00 ∷ 0x03 ∷ 0x68 ∷ 0x43 ∷ 0x03 ∷ []) Running ≡ sessions.Fault errors.Message }
    ensures settings { session_walk_of (0x04 ∷ 0x00 ∷ []) Running ≡ sessions.Fault errors.FrameUnexpected }
{}

/// Walks up to a response.
pub fn response_rows()
    ensures accepted { response_walk_of (response_bytes (codes "200")) Running ≡ responses.Response (status_fields (codes "200")) 17 }
    ensures ended { response_walk_of (0x01 ∷ 0x0f ∷ 0x00 ∷ []) Fin ≡ responses.Ended }
{}
