ghost use Rattle.station.specs.Exactness.{Exact, Unique};

/// The theorems on what a read hands up: exactly the lawful, near and unwithheld message, and there is one at most.
pub fn reading_is_exact()
    ensures exact { Exact }
    ensures unique { Unique }
{}
