// What bitmap stores should do on examples.
#![tactic(auto)]

#[cfg(test)]
mod tests;
