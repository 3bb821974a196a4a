//! Tests of snapshots: states that calls come to are written, and read again.

#[cfg(test)]
mod again;
#[cfg(test)]
mod changed;
#[cfg(test)]
mod loaded;
#[cfg(test)]
mod machines;
#[cfg(test)]
mod read;
