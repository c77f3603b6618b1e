// What one configuration keeps of a source, and the refusals of sources, on examples.
#![tactic(auto)]

#[cfg(test)]
mod tests;
