//! The resolver of host names, which a client's configuration keeps and its caller asks.
ghost use Rattle.std.specs.Prelude.{◌≡◌, IfOk};

use std::alloc::Global;
use wt_wire::error::OutOfMemory;
use wt_wire::lookup::Lookup;

/// Resolves the names of hosts. What it answers for a host is the one meaning of a resolver: it does
/// not change while the resolver is kept.
pub trait DnsResolver: Drop + Send {
    ghost use Rattle.std.specs.Prelude.{List, ℕ};
    ghost use Rattle.wt_wire.specs.declared.lookup.Lookup.{Lookup};

    // What each host, as the bytes of its text, is looked up to.
    ghost lookup_of: { Self → List ℕ → Lookup };

    /// What this host is looked up to. `host` is a domain, a colon and a port.
    ///
    /// # Errors
    ///
    /// `OutOfMemory` where the answer found no memory.
    fn resolve(&self, alloc: Global, host: &str) -> Result<Lookup, OutOfMemory>
        ensures { IfOk result (λ lookup. lookup ≡ lookup_of self.now host.now) };
}
