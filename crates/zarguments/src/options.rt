//! An option.

/// An option `--NAME N`, where N is a number of `u16`.
#[derive(Clone, Copy, Debug, PartialEq, Eq)]
pub struct NumberOption<'a> {
    /// Its name.
    pub name: &'a str,
    /// The number, as text, that it has where the words leave it out.
    pub default: &'a str,
}
