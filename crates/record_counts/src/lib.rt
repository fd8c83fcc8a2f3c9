// What is counted of records, each of which is an order with its stored answer.
#![tactic(auto)]

ghost use Rattle.std.specs.Prelude.{◌≡◌};
ghost use Rattle.record_counts.specs.Counts.{record_counted, answer_counted};

// How many orders were compared, and how many of them came to another answer than the stored one, or left other bytes.
#[derive(Clone, Copy)]
pub struct Tally {
    pub records: usize,
    pub differing: usize,
}

// Counts an answer by its number, 0 for a filled order.
#[tactic(auto, using(crate::proofs::Counts::one_more_min), unfolding(crate::specs::Counts::answer_counted))]
pub fn count(counts: &mut [usize], number: usize)
    ensures { counts.new ≡ answer_counted number counts.old }
{
    if number < counts.len() {
        counts[number] = counts[number].saturating_add(1);
    }
}

// Counts a record, which holds or differs.
#[tactic(auto, using(crate::proofs::Counts::one_more_min), unfolding(crate::specs::Counts::record_counted))]
pub fn record_counted(holds: bool, before: Tally) -> Tally
    ensures { result ≡ record_counted holds before }
{
    let records = before.records.saturating_add(1);
    if holds {
        return Tally {
            records,
            differing: before.differing,
        };
    }
    Tally {
        records,
        differing: before.differing.saturating_add(1),
    }
}
