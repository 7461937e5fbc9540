// Laws of whole numbers, and what follows from the definitions of quotients, roots and blocks: the functions are empty, and the contract
// of each is a law.

ghost use Rattle.pb_fixed.specs.Quotients.{floor_div, ceil_div, nearest_div};
ghost use Rattle.pb_fixed.specs.Laws.{RoundsQuotients, AreDirected, AreRoots, AreBlockExponents};
ghost use Rattle.pb_fixed.specs.IntegerLaws.{IsRing, IsOrderedRing, HasTriangle, SchwarzLaw, PartialSumLaw, DoubleSumLaw};

/// Each of the three quotients is exact at multiples, keeps the order and shifts with multiples of the divisor. Each is what its name
/// says and is unique, and they are in order. The nearest quotient by an even divisor is a quotient rounded down.
pub fn quotient_laws()
    ensures floor { RoundsQuotients floor_div }
    ensures ceiling { RoundsQuotients ceil_div }
    ensures nearest { RoundsQuotients nearest_div }
    ensures directed { AreDirected }
{}

/// The roots are what their names say, are unique, and keep the order.
pub fn root_laws()
    ensures { AreRoots }
{}

/// The block exponent is the least that fits, and is unique.
pub fn block_laws()
    ensures { AreBlockExponents }
{}

/// Whole numbers are a commutative ring.
pub fn ring_laws()
    ensures { IsRing }
{}

/// A factor that isn't negative keeps the order, a positive factor cancels, and squares aren't negative.
pub fn order_laws()
    ensures { IsOrderedRing }
{}

/// The absolute value of a sum is at most the sum of the absolute values.
pub fn triangle_law<T>()
    ensures { HasTriangle T }
{}

/// The inequality of Cauchy and Schwarz over a list, in whole numbers (Steele, The Cauchy-Schwarz Master Class, chapter 1).
pub fn schwarz_law<T>()
    ensures { SchwarzLaw T }
{}

/// A sum over some places of a list of numbers that aren't negative is at most the sum of the list.
pub fn partial_sum_law<T>()
    ensures { PartialSumLaw T }
{}

/// A sum of sums is the same in either order.
pub fn double_sum_law<T, U>()
    ensures { DoubleSumLaw T U }
{}
