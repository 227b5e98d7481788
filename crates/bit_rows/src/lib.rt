//! The device bits of muxes in rows, both ways: the bits of a mux, and under dense numbers of the bits the muxes of a bit.
#![tactic(auto)]

mod bit_table;
mod digits;
mod grouping;
mod numbered;
mod pair;
mod sorted;

pub use bit_table::BitRows;
pub use pair::MuxBit;

#[cfg(test)]
mod tests;
