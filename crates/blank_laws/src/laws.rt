//! What holds of a seat's own bucket rows in every run of every table.

ghost use Rattle.blank_laws.specs.OwnRows.{ExchangesAreElsewhere, OthersLeaveOwnRows, OwnRowsOpenBlank};

/// The words of a seat's own bucket rows are 0 at the opening. No step of another seat changes one of them, and no
/// exchange is on one.
pub fn own_row_laws()
    ensures open_blank { OwnRowsOpenBlank }
    ensures others_leave { OthersLeaveOwnRows }
    ensures elsewhere { ExchangesAreElsewhere }
{}
