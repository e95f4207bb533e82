// One nesting of all four operators over machines and a counter.
#![tactic(auto)]

pub mod nest;

pub use nest::{Nest, NestRefusal, Numbers, make_nest, perform_nested};
