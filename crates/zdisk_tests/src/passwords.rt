//! Tests of passwords: what another program derives is derived, and nothing else is taken for it.

#[cfg(test)]
mod passwords;
