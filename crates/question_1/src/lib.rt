// Question 1, of the lengths of the buffers that are lent.
#![tactic(auto)]

ghost use Rattle.std.specs.Prelude.{◌≡◌};
ghost use Rattle.promise.specs.Promise.{suffice};

// Question 1: are the buffers long enough?
pub fn long_enough(table: usize, levels: usize, scratch: usize) -> bool
    ensures { result ≡ suffice table levels scratch }
{
    if table < 65536 {
        return false;
    }
    if levels < 128 {
        return false;
    }
    65536 <= scratch
}
