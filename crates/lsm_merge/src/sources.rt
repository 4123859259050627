//! Where the rows of a merge come from.
ghost use Rattle.std.specs.Prelude.{◌≡◌, ◌∷◌, [], true, List, Bool, Option, Some, None, OnOk, OnErr, IfOk, IfErr, MatchOption};
ghost use Rattle.lsm_rows.specs.declared.rows.Row.{Row};

use lsm_rows::Row;

/// Rows that are given one by one, in the order of their internal keys. A source may keep a part
/// of its rows in a buffer, and ask by a fault that the buffer be filled.
pub trait RowSource {
    /// Why it gives no row though it isn't at its end.
    type Fault;

    /// The rows that it has left, as far as it knows them, in the order of their internal keys.
    ghost left: { Self → List Row };

    /// Whether it is at its end: no row is left, and none follows.
    ghost ended: { Self → Bool };

    /// Whether it knows all the rows that it has left. No call of it changes that: where it doesn't
    /// know them, its lender tells it of more.
    ghost whole: { Self → Bool };

    /// The fault of its last answer; none where that was no fault, or it wasn't asked yet.
    ghost fault: { Self → Option Self.Fault };

    /// Gives the first row that is left, and takes it off. None comes at its end alone. A fault
    /// leaves the rows as they were.
    fn next(&mut self) -> Result<Option<Row>, Self::Fault>
        ensures ok { IfOk result (λ row. MatchOption row
            ((left self.old ≡ []) × (left self.new ≡ []) × (ended self.new ≡ true))
            (λ row. left self.old ≡ row ∷ left self.new)) }
        ensures err { OnErr result (left self.new ≡ left self.old) }
        ensures end { ended self.old ≡ true → ended self.new ≡ true }
        ensures whole { whole self.new ≡ whole self.old }
        ensures answered { OnOk result (fault self.new ≡ None) }
        ensures refused { IfErr result (λ why. fault self.new ≡ Some why) };

    /// At its end no row is left.
    ghost none_at_end: { (source : Self) → ended source ≡ true → left source ≡ [] };
}
