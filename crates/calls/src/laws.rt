//! The theorems on calls: each function's contract is one, and its statement stands in specs/.
ghost use Rattle.calls.specs.Law.{Law};
ghost use Rattle.calls.specs.Yards.{Yards};

/// What holds over whole runs of calls.
pub fn law_stands()
    ensures { Law }
{}

/// The worked yards, from their texts on.
pub fn yards_stand()
    ensures { Yards }
{}
