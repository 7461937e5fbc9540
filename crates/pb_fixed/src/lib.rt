//! Directed whole-number arithmetic: quotients and square roots whose direction of rounding is
//! certain, and sums of squares that stay within 128 bits. No call allocates memory, and none fails.
//!
//! A bound is only as good as the direction of its roundings: a lower end goes down, an upper end
//! goes up, and a printed value goes to the nearest.
//!
//! Laws of signed whole numbers that the kit doesn't have (their ring, their order, and sums over lists) are the contracts of empty functions.
#![tactic(auto)]

mod blocks;
mod laws;
mod quotients;
mod roots;

pub use blocks::{block_exponent, block_squares, half_width};
pub use laws::{
    block_laws, double_sum_law, order_laws, partial_sum_law, quotient_laws, ring_laws, root_laws,
    schwarz_law, triangle_law,
};
pub use quotients::{div_ceil, div_floor, div_nearest, shift_nearest};
pub use roots::{root_ceil, root_floor, scaled_root};
