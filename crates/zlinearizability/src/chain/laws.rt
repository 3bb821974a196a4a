//! The laws.

ghost use Rattle.zlinearizability.specs.chain.Laws.{LastIsLength, OpeningIsSound, RequestsAreLost};

/// In every run of the log world, the number of a server's last entry is the length of its log. The
/// same holds of each snapshot in flight.
pub fn lasts_are_lengths()
    ensures { LastIsLength }
{}

/// The initial state is sound.
pub fn opening_is_sound()
    ensures { OpeningIsSound }
{}

/// A request is lost.
pub fn requests_are_lost()
    ensures { RequestsAreLost }
{}
