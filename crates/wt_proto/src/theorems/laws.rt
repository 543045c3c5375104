//! What holds of the grammar, each a function whose contract is the law.
ghost use Rattle.std.specs.Prelude.{◌≡◌, ◌≤◌, ◌+◌, ℕ, List, ◌++◌, fold, length, IsSome, Some, true};
ghost use Rattle.std.specs.List.{concat};
ghost use Rattle.wt_proto.specs.Bi.{bi_verdict_of};
ghost use Rattle.wt_proto.specs.ControlWalk.{control_walk_of};
ghost use Rattle.wt_proto.specs.ResponseWalk.{is_answered, response_walk_of};
ghost use Rattle.wt_proto.specs.SessionReader.{HasReadSession, SessionReader, session_fed, session_said};
ghost use Rattle.wt_proto.specs.SessionWalk.{is_over, session_walk_of};
ghost use Rattle.wt_proto.specs.Uni.{is_final, uni_verdict_of};
ghost use Rattle.wt_message.specs.declared.settings.Settings.{Settings};
ghost use Rattle.wt_wire.specs.declared.side.StreamEnd.{StreamEnd};
ghost use Rattle.wt_wire.specs.declared.side.StreamEnd.TheVariants.{Running};

/// A verdict of a unidirectional stream that isn't Incomplete stays under more bytes and under an
/// end.
#[tactic(auto, using(crate::proofs::UniLaws::uni_verdict_stays))]
pub fn uni_verdict_stays()
    ensures { (bytes more : List ℕ) (end : StreamEnd) → is_final (uni_verdict_of bytes Running) ≡ true →
        uni_verdict_of (bytes ++ more) end ≡ uni_verdict_of bytes Running }
{}

/// A verdict of a bidirectional stream that isn't Incomplete stays under more bytes and under an
/// end.
#[tactic(auto, using(crate::proofs::BiLaws::bi_verdict_stays))]
pub fn bi_verdict_stays()
    ensures { (bytes more : List ℕ) (end : StreamEnd) → is_final (bi_verdict_of bytes Running) ≡ true →
        bi_verdict_of (bytes ++ more) end ≡ bi_verdict_of bytes Running }
{}

/// A fault of the control stream stays under more bytes and under an end, and so do the settings
/// that came before it.
#[tactic(auto, using(crate::proofs::ControlLaws::control_fault_stays))]
pub fn control_fault_stays()
    ensures { (bytes more : List ℕ) (end : StreamEnd) → IsSome (control_walk_of bytes Running).fault →
        control_walk_of (bytes ++ more) end ≡ control_walk_of bytes Running }
{}

/// Settings that came stay under more bytes and whatever the end.
#[tactic(auto, using(crate::proofs::ControlLaws::settings_stay))]
pub fn settings_stay()
    ensures { (bytes more : List ℕ) (end later : StreamEnd) (s : Settings) → (control_walk_of bytes end).settings ≡ Some s →
        (control_walk_of (bytes ++ more) later).settings ≡ Some s }
{}

/// A session's close or fault stays under more bytes and under an end.
#[tactic(auto, using(crate::proofs::SessionSteady::session_walk_stays))]
pub fn session_walk_stays()
    ensures { (bytes more : List ℕ) (end : StreamEnd) → is_over (session_walk_of bytes Running) ≡ true →
        session_walk_of (bytes ++ more) end ≡ session_walk_of bytes Running }
{}

/// The reader of a session's stream says what the walk over all of its bytes says, stands alike however they are cut, and keeps at
/// most 1,058 of them.
pub fn session_readers_say_the_walk()
    ensures says { (r : SessionReader) (bytes : List ℕ) (end : StreamEnd) → HasReadSession r bytes end → session_said r ≡ session_walk_of bytes end }
    ensures cutting { (r : SessionReader) (pieces others : List (List ℕ)) → concat pieces ≡ concat others → fold session_fed r pieces ≡ fold session_fed r others }
    ensures few { (r : SessionReader) (bytes : List ℕ) (end : StreamEnd) → HasReadSession r bytes end → length r.headers.kept + length r.capsules.kept ≤ 1058 }
{}

/// A response or its fault stays under more bytes and under an end.
#[tactic(auto, using(crate::proofs::ResponseWalkLaws::response_walk_stays))]
pub fn response_walk_stays()
    ensures { (bytes more : List ℕ) (end : StreamEnd) → is_answered (response_walk_of bytes Running) ≡ true →
        response_walk_of (bytes ++ more) end ≡ response_walk_of bytes Running }
{}
