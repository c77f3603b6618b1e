// What diagram stores should do on examples, and on random lists of operations.
#![tactic(auto)]

#[cfg(test)]
mod brute_force;
#[cfg(test)]
mod tests;
