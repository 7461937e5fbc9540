// The costs of meters that an `advise` row names.

ghost use Rattle.std.specs.Prelude.{◌≡◌, ◌<◌, length, slice_get, Some};
ghost use Rattle.pb_kinds.specs.Costs.{IsMeterCost, named_costs};
ghost use Rattle.pb_kinds.specs.Requests.{AsksAdvice};

use crate::there::{long_there, name_there};
use pb_form::{Fields, SessionKind, read_columns, session_schema};
use pb_rows::{Name, Row};
use std::marker::Model;

/// What a meter on a stream costs, in any unit.
#[derive(Clone, Copy)]
pub struct NamedCost {
    pub stream: Name,
    pub cost: i64,
}

/// The costs that an `advise` row names, in order, borrowed from the row.
#[derive(Drop)]
pub struct NamedCosts<'a> {
    pairs: Fields<'a>,
    len: usize,
}

impl<'a> Model for NamedCosts<'a> {
    ghost use Rattle.std.specs.Prelude.{List};
    ghost use Rattle.pb_kinds.specs.declared.costs.NamedCost.{NamedCost};
    ghost use Rattle.pb_kinds.specs.There.{ArePairs, costs_by, pairs_read};

    ghost Value = { List NamedCost };

    ghost view = { λ a. costs_by (pairs_read a.pairs) };

    ghost invariant = { λ a. ArePairs a.pairs a.len };
}

impl<'a> NamedCosts<'a> {
    /// The costs that a record names. The record asks for advice.
    pub fn of(row: &'a Row) -> NamedCosts<'a>
        requires { AsksAdvice row.now }
        ensures { result ≡ named_costs row.now }
    {
        let pairs = Fields::filled(row).skip(1);
        let len = pairs.len() / 2;
        NamedCosts { pairs, len }
    }

    /// The number of costs.
    pub fn len(&self) -> usize
        ensures { result ≡ length self.now }
    {
        self.len
    }

    /// The cost at a place, counted from 0.
    pub fn at(&self, place: usize) -> NamedCost
        requires { place < length self.now }
        ensures value { slice_get self.now place ≡ Some result }
        ensures within { IsMeterCost result.cost }
    {
        let columns = session_schema(SessionKind::Advise).tail;
        let pair = read_columns(columns, &self.pairs.skip(2 * place)).unwrap();
        NamedCost {
            stream: name_there(&pair, 0),
            cost: long_there(&pair, 1),
        }
    }
}
