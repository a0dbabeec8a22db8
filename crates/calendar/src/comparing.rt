// Whether two times are the same.
ghost use Rattle.std.specs.Prelude.{◌≡◌, Decides};
ghost use Rattle.calendar.specs.Moment.{moment_of, same_moment};

use crate::date_time::DateTime;

impl DateTime {
    // Whether this is the same time as another.
    // Kept: `==` is derived and says whether the six numbers are equal; this promises it of the moments, for callers' clauses.
    #[tactic(auto, unfolding(crate::specs::Moment::same_moment))]
    pub fn same(self, other: DateTime) -> bool
        ensures decides { Decides result (moment_of self ≡ moment_of other) }
        ensures value { result ≡ same_moment (moment_of self) (moment_of other) }
    {
        self == other
    }
}
