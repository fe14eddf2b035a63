//! Tests of single calls that no run shows, as tables: what a row shows, the input, and the answer
//! that is wanted. What a run can show stands in the files of cases.
#![tactic(auto)]

#[cfg(test)]
mod command_line;
#[cfg(test)]
mod conditions;
#[cfg(test)]
mod kids;
#[cfg(test)]
mod lines;
#[cfg(test)]
mod logs;
#[cfg(test)]
mod looks;
#[cfg(test)]
mod lookups;
#[cfg(test)]
mod loops;
#[cfg(test)]
mod meta_files;
#[cfg(test)]
mod names;
#[cfg(test)]
mod order;
#[cfg(test)]
mod reasons;
#[cfg(test)]
mod records;
#[cfg(test)]
mod references;
#[cfg(test)]
mod refused;
#[cfg(test)]
mod rows;
#[cfg(test)]
mod sinks;
#[cfg(test)]
mod suffixes;
#[cfg(test)]
mod texts;
#[cfg(test)]
mod values;
#[cfg(test)]
mod variables;
#[cfg(test)]
mod walks;
#[cfg(test)]
mod words;
