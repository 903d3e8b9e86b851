//! Tests of the libraries below the cage, by their public calls: what no contract says, the worked examples, and each
//! public call once with ample memory. They are here so that no crate is proved a second time for its tests.
#![tactic(auto)]

#[cfg(test)]
mod ample_memory;
#[cfg(test)]
mod base;
#[cfg(test)]
mod card;
#[cfg(test)]
mod channel;
#[cfg(test)]
mod code;
#[cfg(test)]
mod hislip;
#[cfg(test)]
mod hostile_bytes;
#[cfg(test)]
mod hostile_listings;
#[cfg(test)]
mod hostile_memory;
#[cfg(test)]
mod kinds;
#[cfg(test)]
mod layered;
#[cfg(test)]
mod lex;
#[cfg(test)]
mod lex_timers;
#[cfg(test)]
mod macros;
#[cfg(test)]
mod positions;
#[cfg(test)]
mod settling;
#[cfg(test)]
mod status;
#[cfg(test)]
mod trigger;
#[cfg(test)]
mod verified;
#[cfg(test)]
mod verify;
