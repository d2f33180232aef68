//! Each rule read, written and refused at concrete types, through its bound.

mod bits;
mod calls;
mod compose;
mod faults;
mod lists;
mod octets;
mod samples;
mod scalar;
mod sum;
mod totals;
