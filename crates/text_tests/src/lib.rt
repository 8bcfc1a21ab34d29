#![tactic(auto)]

// Tests of rule texts and of log files.
#[cfg(test)]
mod log_files;
#[cfg(test)]
mod rule_texts;
