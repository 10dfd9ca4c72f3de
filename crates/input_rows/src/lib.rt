//! Tests of the calls that read and write which need code: streams that are cut or changed at each byte, files of the operating
//! system, readers and writers that no caller should trust, and gauges that count how often they are dropped. Rows on single calls
//! are in the tables of `input_calls`. The crate has tests alone.
#![tactic(auto)]

#[cfg(test)]
mod drops;
#[cfg(test)]
mod listed_reads;
#[cfg(test)]
mod streams;
#[cfg(test)]
mod system_files;
#[cfg(test)]
mod writers;
