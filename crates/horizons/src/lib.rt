// What the encoder's deletes will be made from: the horizons of the streams that refer to an entry.
#![tactic(auto)]

pub mod references;
