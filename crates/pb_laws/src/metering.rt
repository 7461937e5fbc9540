// What is proved of meters. The functions are empty: the contract of each is a law.

ghost use Rattle.pb_laws.specs.Metering.{MeteredAdviceLaw, MeteredDesignLaw, MoreMetersLaw};

use pb_advise::{advice_form_law, cheapest_law};

/// The law that more meters never make a determined stream free.
pub fn more_meters_law()
    ensures { MoreMetersLaw }
{}

/// The law that once the advised streams have meters, no stream is unobservable, and a further advice costs nothing.
pub fn metered_law()
    ensures design { MeteredDesignLaw }
    ensures advice { MeteredAdviceLaw }
{
    cheapest_law();
    advice_form_law();
}
