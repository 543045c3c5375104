//! What a session's stream says behind the frame that established the session: frames (RFC 9114, section 7), in whose joined DATA payloads capsules
//! stand (RFC 9297, section 3.2).
#![tactic(auto)]

ghost use Rattle.std.specs.Prelude.{[], ◌&&◌, ◌+◌, ◌==◌, ◌∷◌, ◌||◌, ◌≡◌, Bool, Err, List, None, Ok, Some, drop, false, if◌then◌else◌, length, nat_le, nat_lt, suc, take, true, ℕ};
ghost use Rattle.wt_proto.specs.SessionWalk.{SessionProgress, capsule_decides, is_over, session_decides, session_unfinished, session_walk_of};
ghost use Rattle.wt_message.specs.Capsule.{close_of};
ghost use Rattle.wt_proto.specs.Walk.{outcome_at, whole_walk};
ghost use Rattle.wt_proto.specs.WalkProgress.{WalkProgress, at_item, progress_after, reached_in};
ghost use Rattle.wt_proto.specs.declared.session_walk.SessionWalk.{SessionWalk};
ghost use Rattle.wt_proto.specs.declared.session_walk.SessionWalk.TheVariants as walks;
ghost use Rattle.wt_proto.specs.declared.walk.Step.TheVariants.{Cut, Goes, Stops};
ghost use Rattle.wt_wire.specs.Varint.{varint_at};
ghost use Rattle.wt_wire.specs.declared.error.ErrorCode.TheVariants as h3;
ghost use Rattle.wt_wire.specs.declared.side.StreamEnd.{StreamEnd};
ghost use Rattle.wt_wire.specs.declared.side.StreamEnd.TheVariants as ends;

/// The walk begins between frames, with no byte of a payload left. A byte of a DATA payload goes to the walk over the capsules. A frame at the front has a type and a length: DATA has
/// any length, HEADERS and SETTINGS at most 4,096 bytes; SETTINGS and a signal are unexpected, every other frame is skipped.
#[tactic(auto, using(crate::proofs::Walks::frame_decides, crate::proofs::Walks::byte_decides, crate::proofs::Walks::start_is, crate::proofs::Walks::walk_is))]
pub fn session_streams_are_frames()
    ensures walk { (bytes : List ℕ) (end : StreamEnd) → session_walk_of bytes end ≡ outcome_at session_unfinished end (whole_walk session_decides (record { data_left = 0; capsules = at_item tt }) bytes) }
    ensures payload { (left : ℕ) (capsules : WalkProgress (Unit {0}) SessionWalk) (b : ℕ) (bytes : List ℕ) → session_decides (record { data_left = suc left; capsules = capsules }) (b ∷ bytes)
        ≡ elim (reached_in (progress_after capsule_decides capsules (b ∷ []))).stop [
          | Some outcome ↦ Stops outcome 1
          | None ↦ Goes (record { data_left = left; capsules = progress_after capsule_decides capsules (b ∷ []) }) 1
        ] }
    ensures frame { (capsules : WalkProgress (Unit {0}) SessionWalk) (b : ℕ) (bytes : List ℕ) → session_decides (record { data_left = 0; capsules = capsules }) (b ∷ bytes)
        ≡ elim (varint_at (b ∷ bytes)) [
          | None ↦ Cut
          | Some t ↦ if t.0 == 0x41 then Stops (walks.Fault h3.FrameUnexpected) t.1 else elim (varint_at (drop t.1 (b ∷ bytes))) [
            | None ↦ Cut
            | Some l ↦
                if t.0 == 0 then Goes (record { data_left = l.0; capsules = capsules }) (t.1 + l.1)
                else if (t.0 == 1 || t.0 == 4) && nat_lt 4096 l.0 then Stops (walks.Fault h3.ExcessiveLoad) (t.1 + l.1)
                else if t.0 == 4 then Stops (walks.Fault h3.FrameUnexpected) (t.1 + l.1 + l.0) else Goes (record { data_left = 0; capsules = capsules }) (t.1 + l.1 + l.0)
          ]
        ] }
{}

/// A capsule at the front has a type and a length: one that closes the session a code of 4 bytes and a reason of at most 1,024, in UTF-8; every other one is skipped.
#[tactic(auto, using(crate::proofs::Walks::capsule_is))]
pub fn capsules_close_sessions()
    ensures capsule { (bytes : List ℕ) → capsule_decides tt bytes ≡ elim (varint_at bytes) [
      | None ↦ Cut
      | Some t ↦ elim (varint_at (drop t.1 bytes)) [
        | None ↦ Cut
        | Some l ↦
            if t.0 == 0x2843 then (if nat_le 4 l.0 && nat_le l.0 1028 then (if nat_lt (length bytes) (t.1 + l.1 + l.0) then Cut
            else Stops (elim (close_of (take l.0 (drop (t.1 + l.1) bytes))) [ Ok close ↦ walks.Closed close.error_code close.reason | Err fault ↦ walks.Fault fault ]) (t.1 + l.1 + l.0))
            else Stops (walks.Fault h3.Message) (t.1 + l.1)) else Goes tt (t.1 + l.1 + l.0)
      ]
    ] }
{}

/// At the end between frames and between capsules the session is closed with code 0, inside a capsule the end is a fault, and so is an end inside a frame, and a reset.
pub fn session_streams_end()
    ensures running { (state : SessionProgress) (between : Bool) → session_unfinished ends.Running state between ≡ walks.Running }
    ensures reset { (code : ℕ) (state : SessionProgress) (between : Bool) → session_unfinished (ends.Reset code) state between ≡ walks.Fault h3.ClosedCriticalStream }
    ensures inside { (state : SessionProgress) → session_unfinished ends.Fin state false ≡ walks.Fault h3.ClosedCriticalStream }
    ensures between { (state : SessionProgress) → session_unfinished ends.Fin state true ≡ (if state.data_left == 0
        then (if (reached_in state.capsules).between then walks.Closed 0 [] else walks.Fault h3.Message) else walks.Fault h3.ClosedCriticalStream) }
    ensures over { (w : SessionWalk) → is_over w ≡ elim w [ walks.Running ↦ false | _ ↦ true ] }
{}
