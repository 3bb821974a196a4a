//! Tests of a folder's text: entries are applied to a tree, which is written as a snapshot, and
//! read again.

#[cfg(test)]
mod changed;
#[cfg(test)]
mod passwords;
#[cfg(test)]
mod rounds;
#[cfg(test)]
mod states;
#[cfg(test)]
mod texts;
