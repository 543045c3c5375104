//! Sessions that threads share. Each test ends by itself, and comes out alike whatever the schedule.
mod close;
mod command;
mod forms;
mod gates;
mod session;
mod threads;
