//! What the definitions come to: each law is the contract of a function that does nothing.

ghost use Rattle.replay_view.specs.Follow.{FollowedIsPlayed, OneAnswer};

/// What is followed is a played and gated journal, and leads to the machine of the played one.
pub fn followed_is_played()
    ensures { FollowedIsPlayed }
{}

/// A journal that is followed for n entries has no fault below n. So a walker comes exactly where there is none, and the
/// fault of a journal names the least place at which one fits.
pub fn one_answer()
    ensures { OneAnswer }
{}
