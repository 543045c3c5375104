//! Theorems on digests and builders, each a function whose contract states it.
ghost use Rattle.std.specs.Prelude.{◌≡◌, ◌↔◌, ℕ, List, IsTrue, length, fold, Some};
ghost use Rattle.std.specs.Cmp.Lexicographic.{slice_cmp};
ghost use Rattle.std.specs.Ordering.{nat_cmp};
ghost use Rattle.wt_config.specs.Bind.{bind_of};
ghost use Rattle.wt_config.specs.DigestText.{IsBytes, IsDottedHex, digest_of_text, dotted_hex, text_of_digest};
ghost use Rattle.wt_config.specs.declared.digest.Sha256DigestFmt.{Sha256DigestFmt};

use crate::bind::IpBindConfig;
use crate::client::{ClientConfig, ClientConfigBuilder};
use crate::digest::Sha256Digest;
use crate::server::{ServerConfig, ServerConfigBuilder};
use crate::states::{WantsIdentity, WantsRootStore};
use std::cmp::Ordering;
use std::hash::{Hash, Hasher};

/// The text of a digest is read as that digest, in either form.
#[tactic(auto, using(crate::proofs::DigestLaws::text_reads))]
pub fn digest_text_reads_back()
    ensures { (fmt : Sha256DigestFmt) (bytes : List ℕ) → length bytes ≡ 32 → IsBytes bytes →
        digest_of_text fmt (text_of_digest fmt bytes) ≡ Some bytes }
{}

/// The dotted form is 32 times two lower-case hexadecimal digits, joined by colons.
pub fn dotted_form_is_pairs_and_colons()
    ensures { (bytes : List ℕ) → length bytes ≡ 32 → IsBytes bytes → IsDottedHex (dotted_hex bytes) }
{}

/// Two digests are equal exactly where their bytes are.
pub fn equality_is_that_of_bytes(first: &Sha256Digest, second: &Sha256Digest) -> bool
    ensures { IsTrue result ↔ (first.now ≡ second.now) }
{
    first == second
}

/// Two digests are ordered as their bytes are.
pub fn order_is_that_of_bytes(first: &Sha256Digest, second: &Sha256Digest) -> Ordering
    ensures { result ≡ slice_cmp nat_cmp first.now second.now }
{
    first.cmp(second)
}

/// A digest is hashed as its bytes are.
pub fn hash_is_that_of_bytes<H: Hasher>(digest: &Sha256Digest, state: &mut H)
    ensures { state.new ≡ fold H.write state.old (⟦<[u8; 32] as Hash>⟧.hash_input digest.now) }
{
    digest.hash(state);
}

/// A server's default address is that of `InAddrAnyDual`: both ways give the same builder.
pub fn server_default_bind_is_dual(
    port: u16,
) -> (
    ServerConfigBuilder<WantsIdentity>,
    ServerConfigBuilder<WantsIdentity>,
)
    ensures same { result.0 ≡ result.1 }
    ensures dual { result.1 ≡ bind_of IpBindConfig.InAddrAnyDual port }
{
    let default = ServerConfig::builder().with_bind_default(port);
    let dual = ServerConfig::builder().with_bind_config(IpBindConfig::InAddrAnyDual, port);
    (default, dual)
}

/// A client's default address is that of `InAddrAnyDual`: both ways give the same builder.
pub fn client_default_bind_is_dual() -> (
    ClientConfigBuilder<WantsRootStore>,
    ClientConfigBuilder<WantsRootStore>,
)
    ensures same { result.0 ≡ result.1 }
    ensures dual { result.1 ≡ bind_of IpBindConfig.InAddrAnyDual 0 }
{
    let default = ClientConfig::builder().with_bind_default();
    let dual = ClientConfig::builder().with_bind_config(IpBindConfig::InAddrAnyDual);
    (default, dual)
}
