//! A driver, and what its users share, may cross threads.
use crate::bichannel::{BiChannel, ChannelEnd, SendOutcome, TrySendError};
use crate::driver::{Driver, OpenSession};
use crate::halves::{RecvStream, SendStream};
use crate::opening::{OpeningBiStream, OpeningUniStream};
use crate::shared_result::SharedResult;

fn is_send<T: Send>() {}

/// Each of these is `Send`, where its values are: that this compiles is the proof.
pub fn all_are_send<T: Send>() {
    is_send::<Driver>();
    is_send::<OpenSession>();
    is_send::<SendStream>();
    is_send::<RecvStream>();
    is_send::<OpeningUniStream>();
    is_send::<OpeningBiStream>();
    is_send::<SharedResult<T>>();
    is_send::<BiChannel<T>>();
    is_send::<ChannelEnd>();
    is_send::<TrySendError<T>>();
    is_send::<SendOutcome<T>>();
}
