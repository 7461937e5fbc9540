// What meters cost, given an `advise` row, and why the costs that it names are refused.

ghost use Rattle.std.specs.Prelude.{◌≡◌, ℕ, pos, List, All, IfOk, IfSome, false, if◌then◌else◌, map, not, true, unwrap_or};
ghost use Rattle.std.specs.HashMap.{get};
ghost use Rattle.std.specs.List.{list_any};
ghost use Rattle.std.specs.Option.{option_map_or};
ghost use Rattle.pb_rows.specs.Name.{same_name};
ghost use Rattle.pb_site.specs.Row.{is_inventory, is_plain_kind};
ghost use Rattle.pb_kinds.specs.Costs.{IsMeterCost};
ghost use Rattle.pb_book.specs.Costs.{cost_named, meter_costs, names_measured, names_twice, names_unknown, refusal_of_costs};

use crate::answer::Refused;
use indexmap::IndexSet;
use pb_kinds::NamedCosts;
use pb_rows::Name;
use pb_site::{Arc, ArcKind, Site};
use std::alloc::{AllocError, Global};
use std::collections::HashMap;

// What a meter on a plain stream costs, unless a cost is named.
const PLAIN_COST: i64 = 1;

/// The first cause to refuse the costs that an `advise` row names; `None` iff there is none.
pub fn judge_costs(
    alloc: Global,
    site: &Site,
    named: &NamedCosts,
) -> Result<Option<Refused>, AllocError>
    ensures { IfOk result (λ cause. cause ≡ refusal_of_costs site.now named.now) }
{
    if some_unknown(site, named) {
        return Ok(Some(Refused::Unknown));
    }
    if some_twice(alloc, named)? {
        return Ok(Some(Refused::Duplicate));
    }
    if some_measured(site, named) {
        return Ok(Some(Refused::Mismatch));
    }
    Ok(None)
}

// Whether a cost is named for something that isn't a declared stream.
fn some_unknown(site: &Site, named: &NamedCosts) -> bool
    ensures { result ≡ list_any (names_unknown site.now) named.now }
{
    for i in 0..named.len() {
        if is_no_stream(site.kind_of(&named.at(i).stream)) {
            return true;
        }
    }
    false
}

// Whether this isn't the kind of a stream.
fn is_no_stream(kind: Option<ArcKind>) -> bool
    ensures { result ≡ option_map_or is_inventory kind true }
{
    matches!(kind, None | Some(ArcKind::Tank))
}

// Whether two costs are named for the same stream.
fn some_twice(alloc: Global, named: &NamedCosts) -> Result<bool, AllocError>
    ensures { IfOk result (λ twice. twice ≡ names_twice named.now) }
{
    let mut streams: IndexSet<Name> = IndexSet::new(alloc);
    for i in 0..named.len() {
        if !streams.insert(named.at(i).stream)? {
            return Ok(true);
        }
    }
    Ok(false)
}

// Whether a cost is named for something that isn't a plain stream.
fn some_measured(site: &Site, named: &NamedCosts) -> bool
    ensures { result ≡ list_any (names_measured site.now) named.now }
{
    for i in 0..named.len() {
        if is_not_plain(site.kind_of(&named.at(i).stream)) {
            return true;
        }
    }
    false
}

// Whether this isn't the kind of a plain stream.
fn is_not_plain(kind: Option<ArcKind>) -> bool
    ensures { result ≡ not (option_map_or is_plain_kind kind false) }
{
    !matches!(kind, Some(ArcKind::Plain))
}

/// What a meter on each arc of the plant costs, in the order of the arcs.
pub fn meter_costs(alloc: Global, site: &Site, named: &NamedCosts) -> Result<Vec<i64>, AllocError>
    ensures value { IfOk result (λ costs. costs.items ≡ meter_costs site.now named.now) }
    ensures within { IfOk result (λ costs. All IsMeterCost costs.items) }
{
    let by_name = costs_by_name(alloc, named)?;
    let mut costs = Vec::new(alloc);
    for place in 0..site.arcs() {
        costs.push(cost_of_arc(&by_name, &site.arc(place)))?;
    }
    Ok(costs)
}

// The costs that are named, by the names of their streams.
fn costs_by_name(alloc: Global, named: &NamedCosts) -> Result<HashMap<Name, i64>, AllocError>
    ensures value { IfOk result (λ costs. (name : List ℕ)
        → unwrap_or (get same_name costs name) (pos 1) ≡ cost_named named.now name) }
    ensures within { IfOk result (λ costs. (name : List ℕ)
        → IfSome (get same_name costs name) IsMeterCost) }
{
    let mut costs = HashMap::new(alloc);
    for i in 0..named.len() {
        let one = named.at(i);
        costs.insert(one.stream, one.cost)?;
    }
    Ok(costs)
}

// What a meter on an arc costs.
fn cost_of_arc(costs: &HashMap<Name, i64>, arc: &Arc) -> i64
    ensures { result ≡ (if is_plain_kind arc.now.kind
        then unwrap_or (get same_name costs.now arc.now.name) (pos 1) else pos 0) }
{
    match arc.kind {
        ArcKind::Plain => costs.get(&arc.name).copied().unwrap_or(PLAIN_COST),
        _ => 0,
    }
}
