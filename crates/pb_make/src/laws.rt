// Laws of made sessions.

ghost use Rattle.pb_make.specs.Laws.{AreMetered, BalanceLaw, CountLaw, NoneRefusedLaw, PeriodLaw, ReadsBackLaw};

/// The law that the rows of a made session read back from its text.
pub fn reads_back_law()
    ensures { ReadsBackLaw }
{}

/// The law that the metered streams, by place, are all but every seventh stream, in order.
pub fn metered_law()
    ensures { AreMetered }
{}

/// The law that the book accepts each record of a made session after those before it.
pub fn accepted_law()
    ensures { NoneRefusedLaw }
{}

/// The law that a made session has stored its one period before the record that asks for the report.
pub fn period_law()
    ensures { PeriodLaw }
{}

/// The law on the number of rows of a made session.
pub fn count_law()
    ensures { CountLaw }
{}

/// The law that the true flows of a made plant balance at each unit.
pub fn balance_law()
    ensures { BalanceLaw }
{}
