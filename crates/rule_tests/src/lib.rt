// What judging a rule text answers on examples, over a bitmap store and over a diagram store: each is a text and the lines that it must give.
#![tactic(auto)]

#[cfg(test)]
mod bitmap_store;
#[cfg(test)]
mod diagram_store;
#[cfg(test)]
mod limits;
#[cfg(test)]
mod tables;
#[cfg(test)]
mod texts;
