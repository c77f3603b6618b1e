// The plain preprocessor: what one configuration keeps of a source. May use every crate below it.
#![tactic(auto)]

ghost use Rattle.preprocessor.specs.Plain.{preprocessed};

pub mod state;
