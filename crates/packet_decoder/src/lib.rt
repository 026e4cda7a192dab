//! Packets of stream files and their events (CTF 1.8, sections 5 and 6).
#![tactic(auto)]

mod cutting;
mod decoding;
mod events;
mod failure;
mod packet_head;
mod passing;
mod piece;
mod reader;
mod repeated;
mod times;
mod values;

pub use cutting::{cut, cut_within};
pub use decoding::decode;
pub use events::ReadEvent;
pub use failure::Failure;
pub use piece::{Counter, PacketResult, PacketSpan, Piece};
pub use reader::EventReader;
