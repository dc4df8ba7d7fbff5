//! What no contract says of columns: that with memory at hand each call succeeds, for each
//! type. The module of a subject has its tests.
#![tactic(auto)]

#[cfg(test)]
mod batches;
#[cfg(test)]
mod deep_values;
#[cfg(test)]
mod items;
#[cfg(test)]
mod parts;
#[cfg(test)]
mod plain_fields;
#[cfg(test)]
mod samples;
