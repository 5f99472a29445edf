// Tables of limits and refusals, run against the proved crates.
#![tactic(auto)]

#[cfg(test)]
mod answers;
#[cfg(test)]
mod directories;
#[cfg(test)]
mod ends;
#[cfg(test)]
mod printed;
#[cfg(test)]
mod records;
#[cfg(test)]
mod samples;
#[cfg(test)]
mod schemes;
#[cfg(test)]
mod spoken;
