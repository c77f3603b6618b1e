// Rules over any store: which configurations of a product family's switches they allow.
// May use every crate below it but no one store. Promises: the allowed configurations, and every refusal with its place.
#![tactic(auto)]

mod entries;
pub mod reading;
