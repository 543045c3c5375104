//! Endpoints: connections by number, each answered by its own turns alone.

pub use wt_endpoint::{
    Client, Closings, Endpoint, EndpointAnswers, EndpointError, EndpointReply, EndpointSide,
    EndpointTurn, Server, run_endpoint,
};
