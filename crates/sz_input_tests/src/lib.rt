//! Tests of the command line, and of where an input comes from and how it is read: words, devices, the generated input, the wire format,
//! records, and where files are cut.
#![tactic(auto)]

#[cfg(test)]
mod behind;
#[cfg(test)]
mod cuts;
#[cfg(test)]
mod devices;
#[cfg(test)]
mod ends;
#[cfg(test)]
mod feed;
#[cfg(test)]
mod file_rows;
#[cfg(test)]
mod records;
#[cfg(test)]
mod resume_rows;
#[cfg(test)]
mod rows;
#[cfg(test)]
mod told;
#[cfg(test)]
mod wire;
