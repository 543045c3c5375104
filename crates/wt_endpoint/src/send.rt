//! Endpoints may cross threads.
use crate::endpoint::{Client, Endpoint, Server};
use crate::run::EndpointError;
use crate::turn::{Closings, EndpointAnswers, EndpointReply, EndpointTurn};

fn is_send<T: Send>() {}

/// An endpoint of either side, its turns and its replies are `Send`: that this compiles is the proof.
pub fn all_are_send() {
    is_send::<Endpoint<Server>>();
    is_send::<Endpoint<Client>>();
    is_send::<EndpointTurn>();
    is_send::<EndpointReply>();
    is_send::<Closings>();
    is_send::<EndpointAnswers>();
    is_send::<EndpointError>();
}
