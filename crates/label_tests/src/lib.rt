#![tactic(auto)]

// Tests of sheets and of labelling, in a crate of their own since tests prove their crate once more.
#[cfg(test)]
mod labels;
#[cfg(test)]
mod pair;
#[cfg(test)]
mod segments;
#[cfg(test)]
mod sheets;
