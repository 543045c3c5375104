//! `==` of small values is their equality.
ghost use Rattle.std.specs.Prelude.{◌≡◌, ◌↔◌, IsTrue};

use crate::settings::SettingId;

/// Of the ids of settings.
pub fn setting_ids_are_equal(first: SettingId, second: SettingId) -> bool
    ensures { IsTrue result ↔ (first ≡ second) }
{
    first == second
}
