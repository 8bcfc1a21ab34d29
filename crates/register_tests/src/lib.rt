#![tactic(auto)]

// Tests of the register on its edges, in a crate of their own since tests prove their crate once more.
#[cfg(test)]
mod adding;
#[cfg(test)]
mod common;
#[cfg(test)]
mod holding;
#[cfg(test)]
mod published;
