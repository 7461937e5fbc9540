// Prices for the groups of a graph, and sweeps of best prices.
//
// Coordinate ascent on the dual of the least squares problem (Bertsekas, Nonlinear Programming). A price for
// each group of nodes gives each measured stream a dual flow: its value plus its variance times the rise of
// the price along it. A group whose dual flows don't balance, with net N and variance A of its border, has
// its best price N/A below its present one: with it the group balances to the last unit, and the dual value
// rises.
//
//          +12 -->( g )--> -7        N = 12 - 7 = 5, A = 2 + 3 = 5: the price goes down by 1, so the
//          var. 2      var. 3        flows become 10 and 10
//
// Prices are whole numbers in units of 2^-56 per gram. The best price is one rounded quotient, moved into
// the interval in which all adjustments stay within their limit (best.rt). Kept between steps: the dual flow
// of each stream and the streams at the border of each group, so a step costs as much as the border is long,
// and a sweep as much as all of them, without taking memory.

ghost use Rattle.std.specs.Prelude.{◌≡◌, ◌≢◌, ℕ, suc, ◌*◌, ◌^◌, ◌<◌, ◌≤◌, Some, true, false, pos, ◌-ℤ◌, ◌*ℤ◌, ◌≤ℤ◌, length, get_or, slice_get, unsigned_abs, All, IfOk, IfSome, IsTrue};
ghost use Rattle.pb_limits.specs.Limits.{most_nodes, most_streams};
ghost use Rattle.pb_graph.specs.ProcessGraph.{IsWithinLimits};
ghost use Rattle.pb_graph.specs.Groups.{AreGroups, group_count, is_free_group};
ghost use Rattle.pb_graph.specs.Prices.{PricesFit, most_adjustment};
ghost use Rattle.pb_dual.specs.DualValue.{flow_at, dual_flow, dual_flows_of, dual_value, most_dual_flow};
ghost use Rattle.pb_dual.specs.Moves.{with_price, group_flow};
ghost use Rattle.pb_dual.specs.Candidates.{best_price};
ghost use Rattle.pb_dual.specs.Sweeps.{stepped, swept, prices_after};
ghost use Rattle.pb_dual.specs.Priced.{price_of};
ghost use Rattle.pb_dual.specs.Border.{IsPriced};
ghost use Rattle.pb_graph.specs.declared.records.Stream.{Stream};
ghost use Rattle.pb_graph.specs.WellFormed.{IsPrice};

use crate::arithmetic::{flow, greater, peak, rise};
use crate::best::{into_box, net_flow, write_flows};
use crate::border::{BorderStream, all_borders, least_rooms, variances};
use pb_graph::{Graph, List, Stream};
use std::alloc::{AllocError, Global};
use std::marker::Model;

/// Prices for the groups of a graph, which always fit.
///
/// Prices are in units of 2^-56 per gram.
#[derive(Debug, Drop)]
pub struct Dual<'a> {
    graph: &'a Graph,
    group: Vec<u32>,
    prices: Vec<i128>,
    // The dual flow of each stream at these prices.
    flows: Vec<i128>,
    borders: Vec<List<BorderStream>>,
    // The sum of the variances at each border, and the least room.
    variances: Vec<i128>,
    rooms: Vec<i128>,
    // No price exceeds this, either way.
    greatest: i128,
}

impl<'a> Model for Dual<'a> {
    ghost use Rattle.pb_dual.specs.Priced.{Priced};
    ghost use Rattle.pb_dual.specs.Border.{IsDual};

    ghost Value = { Priced };

    ghost view = { λ a.
        record { graph = a.graph.now; group = a.group.items; prices = a.prices.items } };

    ghost invariant = { λ a. IsDual
        (record { graph = a.graph.now; group = a.group.items; prices = a.prices.items })
        a.flows.items a.borders.items a.variances.items a.rooms.items a.greatest };
}

// The number of groups: one more than the greatest group number.
fn count(group: &[u32]) -> u32
    requires { All (λ k. k < most_nodes) group.now }
    ensures { result ≡ group_count group.now }
{
    let mut count = 0;
    for k in group {
        count = count.max(*k + 1);
    }
    count
}

/// The dual flow of a stream whose ends have these prices, in units of 2^-56 gram; 0 if it is
/// unmeasured.
pub fn dual_flow(stream: &Stream, from: i128, to: i128) -> i128
    requires limits { IsWithinLimits stream.now }
    requires from { IsPrice from }
    requires to { IsPrice to }
    requires in_box { IfSome stream.now.meas
        (λ m. unsigned_abs (m.variance *ℤ (to -ℤ from)) ≤ most_adjustment) }
    ensures value { result ≡ flow_at stream.now.meas (to -ℤ from) }
    ensures within { unsigned_abs result ≤ most_dual_flow }
{
    match stream.meas {
        None => 0,
        Some(m) => flow(m.value, m.variance, rise(from, to)),
    }
}

// Writes 0 at each place.
fn clear(prices: &mut [i128])
    ensures { (k : ℕ) → get_or prices.new k (pos 0) ≡ pos 0 }
{
    for k in 0..prices.len() {
        prices[k] = 0;
    }
}

// Writes the dual flow of each stream at prices of 0.
fn write_measured(streams: &[Stream], out: &mut [i128])
    requires limits { All IsWithinLimits streams.now }
    requires room { length out.old ≡ length streams.now }
    ensures { out.new ≡ dual_flows_of (λ n. pos 0) streams.now }
{
    for (j, stream) in streams.iter().enumerate() {
        out[j] = dual_flow(stream, 0, 0);
    }
}

impl<'a> Dual<'a> {
    /// Prices of 0. `group_of` has the number of each node's group.
    pub fn new(alloc: Global, graph: &'a Graph, group_of: &[u32]) -> Result<Dual<'a>, AllocError>
        requires { AreGroups graph.now group_of.now }
        ensures graph { IfOk result (λ d. d.graph ≡ graph.now) }
        ensures group { IfOk result (λ d. d.group ≡ group_of.now) }
        ensures price { IfOk result (λ d. price_of d ≡ prices_after graph.now group_of.now 0) }
        ensures each { IfOk result (λ d. (k : ℕ) → get_or d.prices k (pos 0) ≡ pos 0) }
        ensures fit { IfOk result (λ d. PricesFit d.graph (price_of d)) }
    {
        let streams = graph.streams();
        let groups = count(group_of);
        let borders = all_borders(alloc, groups, group_of, streams)?;
        let variances = variances(alloc, &borders)?;
        let rooms = least_rooms(alloc, &borders)?;
        let prices = vec![in alloc; 0i128; groups as usize]?;
        let group = Vec::from_slice(alloc, group_of)?;
        let mut flows = vec![in alloc; 0i128; streams.len()]?;
        write_measured(streams, &mut flows);
        Ok(Dual {
            graph,
            group,
            prices,
            flows,
            borders,
            variances,
            rooms,
            greatest: 0,
        })
    }

    /// The graph.
    pub fn graph(&self) -> &Graph
        ensures { result.now ≡ self.now.graph }
    {
        self.graph
    }

    /// The number of groups.
    pub fn groups(&self) -> u32
        ensures value { result ≡ group_count self.now.group }
        ensures priced { IsPriced self.now }
    {
        self.prices.len() as u32
    }

    /// The price of a group, at most 2^120 either way.
    pub fn price(&self, group: u32) -> i128
        requires { group < group_count self.now.group }
        ensures value { result ≡ get_or self.now.prices group (pos 0) }
        ensures within { IsPrice result }
        ensures fit { PricesFit self.now.graph (price_of self.now) }
    {
        self.prices[group as usize]
    }

    /// The price of a node, which is the price of its group, at most 2^120 either way.
    pub fn price_at(&self, node: u32) -> i128
        requires { node < self.now.graph.nodes }
        ensures value { result ≡ price_of self.now node }
        ensures within { IsPrice result }
    {
        self.price(self.group[node as usize])
    }

    /// The dual flow of a stream, in units of 2^-56 gram; 0 if the stream is unmeasured.
    pub fn dual_flow(&self, stream: u32) -> i128
        requires { stream < length self.now.graph.streams }
        ensures value { (s : Stream) → slice_get self.now.graph.streams stream ≡ Some s
            → result ≡ dual_flow (price_of self.now) s }
        ensures within { unsigned_abs result ≤ most_dual_flow }
    {
        self.flows[stream as usize]
    }

    /// The dual flow of each stream.
    pub fn dual_flows(&self) -> &[i128]
        ensures value { result.now ≡ dual_flows_of (price_of self.now) self.now.graph.streams }
        ensures within { All (λ u. unsigned_abs u ≤ most_dual_flow) result.now }
    {
        self.flows.as_slice()
    }

    /// The net dual flow of a group: what enters it less what leaves it, in units of 2^-56 gram.
    pub fn net_flow(&self, group: u32) -> i128
        requires { group < group_count self.now.group }
        ensures value { result
            ≡ group_flow self.now.group (price_of self.now) group self.now.graph.streams }
        ensures within { unsigned_abs result ≤ most_streams * most_dual_flow }
    {
        net_flow(self.borders[group as usize].as_slice(), &self.flows)
    }

    // Whether a group is free.
    fn is_free(&self, group: u32) -> bool
        requires { group < group_count self.now.group }
        ensures value { result ≡ is_free_group self.now.group self.now.graph.streams group }
        ensures priced { IsPriced self.now }
    {
        group != 0 && self.borders[group as usize].len() > 0
    }

    // The best price of a free group: the present price less the nearest quotient of the net dual flow by
    // the variance, moved into the interval that the border allows.
    fn best_price(&self, group: u32) -> i128
        requires group { group < group_count self.now.group }
        requires free { is_free_group self.now.group self.now.graph.streams group ≡ true }
        ensures value { result
            ≡ best_price self.now.group (price_of self.now) group self.now.graph.streams }
        ensures within { IsPrice result }
        ensures fit { PricesFit self.now.graph
            (with_price self.now.group (price_of self.now) group result) }
        ensures ascent { dual_value (price_of self.now) self.now.graph.streams
            ≤ℤ dual_value
            (with_price self.now.group (price_of self.now) group result) self.now.graph.streams }
    {
        let k = group as usize;
        let border = self.borders[k].as_slice();
        let nearest = peak(
            self.prices[k],
            net_flow(border, &self.flows),
            self.variances[k],
        );
        into_box(
            nearest,
            border,
            &self.prices,
            group,
            self.rooms[k],
            self.greatest,
        )
    }

    // Gives a group a price that fits.
    fn set_price(&mut self, group: u32, price: i128)
        requires group { group < group_count self.old.group }
        requires within { IsPrice price }
        requires fit { PricesFit self.old.graph
            (with_price self.old.group (price_of self.old) group price) }
        ensures price { price_of self.new
            ≡ with_price self.old.group (price_of self.old) group price }
        ensures graph { self.new.graph ≡ self.old.graph }
        ensures groups { self.new.group ≡ self.old.group }
        ensures own { get_or self.new.prices group (pos 0) ≡ price }
        ensures others { (k : ℕ) → k ≢ group
            → get_or self.new.prices k (pos 0) ≡ get_or self.old.prices k (pos 0) }
    {
        self.prices[group as usize] = price;
        self.greatest = greater(self.greatest, price);
        write_flows(
            self.borders[group as usize].as_slice(),
            &self.prices,
            group,
            &mut self.flows,
        );
    }

    /// Gives a group its best price if it is free, and leaves it as it is otherwise. Returns whether its price changed.
    pub fn step(&mut self, group: u32) -> bool
        requires { group < group_count self.old.group }
        ensures price { price_of self.new
            ≡ stepped self.old.group self.old.graph.streams (price_of self.old) group }
        ensures graph { self.new.graph ≡ self.old.graph }
        ensures groups { self.new.group ≡ self.old.group }
        ensures others { (k : ℕ) → k ≢ group
            → get_or self.new.prices k (pos 0) ≡ get_or self.old.prices k (pos 0) }
        ensures fit { PricesFit self.new.graph (price_of self.new) }
        ensures ascent { dual_value (price_of self.old) self.old.graph.streams
            ≤ℤ dual_value (price_of self.new) self.old.graph.streams }
        ensures idle { result ≡ false → self.new ≡ self.old }
        ensures moved { IsTrue result
            → get_or self.new.prices group (pos 0) ≢ get_or self.old.prices group (pos 0) }
    {
        if !self.is_free(group) {
            return false;
        }
        let best = self.best_price(group);
        if best == self.price(group) {
            return false;
        }
        self.set_price(group, best);
        true
    }

    /// Gives each free group its best price, in the order of the groups. Returns whether a price changed.
    pub fn sweep(&mut self) -> bool
        ensures price { price_of self.new
            ≡ swept self.old.group self.old.graph.streams (price_of self.old)
            (group_count self.old.group) }
        ensures graph { self.new.graph ≡ self.old.graph }
        ensures groups { self.new.group ≡ self.old.group }
        ensures more { (k : ℕ) → price_of self.old ≡ prices_after self.old.graph self.old.group k
            → price_of self.new ≡ prices_after self.old.graph self.old.group (suc k) }
        ensures fit { PricesFit self.new.graph (price_of self.new) }
        ensures ascent { dual_value (price_of self.old) self.old.graph.streams
            ≤ℤ dual_value (price_of self.new) self.old.graph.streams }
        ensures idle { result ≡ false → self.new ≡ self.old }
        ensures moved { IsTrue result → price_of self.new ≢ price_of self.old }
    {
        let mut moved = false;
        for group in 0..self.groups() {
            if self.step(group) {
                moved = true;
            }
        }
        moved
    }

    /// Gives every group the price 0 again.
    pub fn reset(&mut self)
        ensures price { price_of self.new ≡ prices_after self.old.graph self.old.group 0 }
        ensures graph { self.new.graph ≡ self.old.graph }
        ensures groups { self.new.group ≡ self.old.group }
        ensures each { (k : ℕ) → get_or self.new.prices k (pos 0) ≡ pos 0 }
        ensures fit { PricesFit self.new.graph (price_of self.new) }
    {
        clear(&mut self.prices);
        write_measured(self.graph.streams(), &mut self.flows);
        self.greatest = 0;
    }
}
