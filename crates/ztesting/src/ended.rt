//! How a story ends.

ghost use Rattle.std.specs.Prelude.{◌≡◌, if◌then◌else◌};
ghost use Rattle.ztesting.specs.declared.ended.Ended.TheVariants as ending;

/// How a story ends.
#[derive(Clone, Copy, Debug, PartialEq, Eq)]
pub enum Ended {
    /// Memory ran out before it began.
    NotBegun,
    /// The call did what it was asked.
    Done,
    /// The call ran out of memory, and the state is as it should be.
    Refused,
    /// None of these.
    Wrong,
}

impl Ended {
    /// Returns how a story ended whose call was done: `Done` if the check holds, else `Wrong`.
    pub fn done(holds: bool) -> Ended
        ensures { result ≡ if holds then ending.Done else ending.Wrong }
    {
        if holds { Ended::Done } else { Ended::Wrong }
    }

    /// Returns how a story ended whose call ran out of memory: `Refused` if the check holds, else
    /// `Wrong`.
    pub fn refused(holds: bool) -> Ended
        ensures { result ≡ if holds then ending.Refused else ending.Wrong }
    {
        if holds { Ended::Refused } else { Ended::Wrong }
    }
}
