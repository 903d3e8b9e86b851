//! Tests of the drivers by their public calls, over a wire that answers from a list: frames from the standard, and each
//! fault of a board, a line or a meter.
#![tactic(auto)]

#[cfg(test)]
mod boards;
#[cfg(test)]
mod frames;
#[cfg(test)]
mod lines;
#[cfg(test)]
mod meters;
#[cfg(test)]
mod reaching;
#[cfg(test)]
mod script;
