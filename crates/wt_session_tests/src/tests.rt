//! Worked connections, call by call, as scripts that [`script`] runs.
mod application;
mod clients;
mod drivers;
mod ends;
mod machine;
mod script;
mod servers;
mod streams;
mod targets;
mod values;
