//! What is written is read back: laws, each a function whose contract is the law.
ghost use Rattle.std.specs.Prelude.{◌≡◌, ◌<◌, ◌^◌, List, ℕ, Ok};
ghost use Rattle.wt_message.specs.Datagram.{datagram_bytes, datagram_of};
ghost use Rattle.wt_message.specs.Settings.{AreSmall, settings_bytes, settings_of};
ghost use Rattle.wt_message.specs.declared.settings.Settings.{Settings};

/// Settings.
#[tactic(auto, using(crate::proofs::SettingsAgain::all_again))]
pub fn settings_read_back()
    ensures { (settings : Settings) → AreSmall settings → settings_of (settings_bytes settings) ≡ Ok settings }
{}

/// The quarter id and the payload of a datagram.
#[tactic(auto, using(crate::proofs::DatagramLaws::datagram_again))]
pub fn datagram_read_back()
    ensures { (quarter : ℕ) (payload : List ℕ) → quarter < 2 ^ 60 → datagram_of (datagram_bytes quarter payload) ≡ Ok (quarter, payload) }
{}
