//! What the contracts leave open: that memory suffices where there is enough, and worked cases.
mod configuration;
mod copies;
mod fields;
mod messages;
mod readers;
mod sessions;
mod shown;
mod table;
mod texts;
mod values;
