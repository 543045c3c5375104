//! What holds of shared results and of channels, each a function whose contract is the law.
ghost use Rattle.std.specs.Prelude.{◌≡◌, ◌++◌, ℕ, List, Some, None, true, false};
ghost use Rattle.wt_driver.specs.BiChannel as channels;
ghost use Rattle.wt_driver.specs.BiChannel.{Channel, ChannelCall, all_received, all_sent, empty_channel, is_closed, queue_of};
ghost use Rattle.wt_driver.specs.declared.bichannel.ChannelEnd.{ChannelEnd};
ghost use Rattle.wt_turn.specs.declared.poll.Poll.TheVariants.{Ready};
ghost use Rattle.wt_driver.specs.SharedResult.{Shared, SharedCall, after_calls, after_set, may_set, result_of};

/// The first result that is set stays: whatever is called later, each `set` answers false, and each
/// poll gives that value.
#[tactic(auto, using(crate::proofs::SharedResultLaws::set_stays, crate::proofs::SharedResultLaws::value_stays))]
pub fn first_result_stays<T>()
    ensures set { (shared : Shared T) (first : T) (later : List (SharedCall T)) → may_set shared ≡ true →
        may_set (after_calls later (after_set first shared)) ≡ false }
    ensures result { (shared : Shared T) (first : T) (later : List (SharedCall T)) → may_set shared ≡ true →
        result_of (after_calls later (after_set first shared)) ≡ Ready (Some first) }
{}

/// Where all setters leave before a `set`, there is no result for ever: whatever is called later,
/// each `set` answers false, and each poll gives None.
#[tactic(auto, using(crate::proofs::SharedResultLaws::no_set_without_setter, crate::proofs::SharedResultLaws::none_stays))]
pub fn no_result_without_setters<T>()
    ensures set { (shared : Shared T) (later : List (SharedCall T)) → shared.value ≡ None → shared.setters ≡ 0 →
        may_set (after_calls later shared) ≡ false }
    ensures result { (shared : Shared T) (later : List (SharedCall T)) → shared.value ≡ None → shared.setters ≡ 0 →
        result_of (after_calls later shared) ≡ Ready None }
{}

/// Whatever is called on a channel, what an end received, followed by what still waits for it, is
/// what was sent to it, in order.
#[tactic(auto, using(crate::proofs::BiChannelLaws::received_in_order))]
pub fn channel_is_in_order<T>()
    ensures { (capacity : ℕ) (end : ChannelEnd) (calls : List (ChannelCall T)) →
        all_received end calls (empty_channel capacity) ++ queue_of end (channels.after_calls calls (empty_channel capacity))
        ≡ all_sent end calls (empty_channel capacity) }
{}

/// Once one of the ends left, nothing is sent for ever, whatever is called.
#[tactic(auto, using(crate::proofs::BiChannelLaws::closed_stays))]
pub fn closed_channel_stays_closed<T>()
    ensures { (channel : Channel T) (calls : List (ChannelCall T)) → is_closed channel ≡ true →
        is_closed (channels.after_calls calls channel) ≡ true }
{}
