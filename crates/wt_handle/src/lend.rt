//! The state behind a handle: lent, let go to C, and taken back.
ghost use types.Logic.{sem};
ghost use Rattle.std.specs.Prelude.{◌≡◌};
ghost use Rattle.wt_handle.specs.With.{handle_follows};
ghost use Rattle.wt_handle.specs.contracts.State.{the_row};
ghost use Rattle.wt_handle.specs.Token.{heap_token};
ghost use Rattle.std_alloc.specs.Box.Ownership.{box_owns};

use crate::loose::Loose;
use crate::{Handle, Opaque, State};
use std::alloc::Global;

impl Handle {
    /// Lends the state.
    pub fn state(&mut self) -> &mut State
        ensures* writes_back { sem 𝓛 (handle_follows self.entry result) }
        ensures value { result.now ≡ self.old.value }
    {
        let at = self.at as *mut State;
        unsafe { &mut *at }
    }

    /// The address of a state, which is its holder's from now on.
    pub fn release(loose: Loose<State, Global>) -> *mut Opaque
        ensures* owned { sem 𝓛 (box_owns heap_token the_row result loose.value) }
    {
        let Loose { at, alloc: _ } = loose;
        at as *mut Opaque
    }

    /// Takes the state back.
    pub fn into_loose(self, alloc: Global) -> Loose<State, Global>
        ensures value { result.value ≡ self.value }
    {
        let Handle { at } = self;
        Loose {
            at: at as *mut State,
            alloc,
        }
    }
}

fn is_send<T: Send>() {}

/// A handle may cross threads.
pub fn handle_is_send() {
    is_send::<Handle>();
}
