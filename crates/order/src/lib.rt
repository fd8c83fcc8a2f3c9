// What the questions on the list of an order answer (document 01, "The order"; questions 2 and 3). The order itself, the list that writes it and the reader are
// definitions in specs/; the crates `list_numbers`, `list_series`, `list_ingredients`, `list_steps`, `reading`, `ingredient_places`,
// `step_places` and `entry_range` have the code.
#![tactic(auto)]

ghost use Rattle.std.specs.Prelude.{◌≡◌};
ghost use Rattle.order.specs.declared.RangeFault.TheVariants.{Unread};

// A place in the list.
#[derive(Clone, Copy)]
pub struct Cursor {
    pub at: usize,
}

// The place where the list is refused.
#[derive(Clone, Copy)]
pub struct Refused {
    pub place: usize,
}

// An ingredient of the list: its sizes, and the places where its level counts or widths and its entries start.
#[derive(Clone, Copy)]
pub enum Located {
    Table {
        rows: usize,
        columns: usize,
        levels_at: usize,
        entries_at: usize,
    },
    Matrix {
        rows: usize,
        columns: usize,
        p: usize,
        entries_at: usize,
    },
    // t rows, n factors over a field of s elements; width, the sum of the factors' widths, is how long a row is.
    Generator {
        t: usize,
        n: usize,
        s: usize,
        widths_at: usize,
        width: usize,
        entries_at: usize,
    },
}

// A step that was read: its kind, and the place where its operands start.
#[derive(Clone, Copy)]
pub struct Stage {
    pub kind: usize,
    pub operands_at: usize,
}

// Why the answer to question 3 is not yes.
#[derive(Clone, Copy)]
pub enum RangeFault {
    // The first entry that is not below its levels, p or s stands here.
    OutOfRange { place: usize },
    // The list does not read, so the question is not asked.
    Unread,
}

impl From<Refused> for RangeFault {
    ghost from_gives = { λ _ fault. fault ≡ Unread };

    fn from(_refusal: Refused) -> RangeFault {
        RangeFault::Unread
    }
}
