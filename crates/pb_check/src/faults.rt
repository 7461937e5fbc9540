// The tests of a judgement, and the fault that a failing test reports.

ghost use Rattle.std.specs.Prelude.{◌≡◌, pos};
ghost use Rattle.pb_check.specs.declared.faults.Place.TheVariants.{Node, Whole};
ghost use Rattle.pb_check.specs.Verdict.{test_code};

/// The tests of a stage, in their order.
#[derive(Clone, Copy, Debug, PartialEq, Eq)]
pub enum Test {
    /// The class is one of measured streams exactly when the stream is measured; there are bounds unless it is unobservable; and there are
    /// least bounds next to the bounds if the stage has any, and otherwise none.
    Class,
    /// The printed cut or cycle shows the class.
    Witness,
    /// The flows balance at each node.
    Balance,
    /// The nodes of a group share a price, which is 0 if the group isn't free.
    Price,
    /// The prices at the ends of a measured stream are close enough.
    Box,
    /// The degrees of freedom are those of the graph.
    Freedom,
    /// The numbers of the gap are those of the flows and the prices.
    Gap,
    /// The state is converged, after no more sweeps than were allowed, if the gap is met; unconverged, after all of them, if it isn't.
    State,
    /// The bounds are those of the prices, the gap and the certificate.
    Bounds,
    /// The statistic is that of the flows and the gap.
    Statistic,
    /// The nodal tests are those of the graph.
    Nodal,
    /// Each verdict follows from the printed numbers.
    Verdict,
    /// The least bounds, if there are any, are those of the flows, the prices, the gap and the certificate.
    Least,
}

impl Test {
    /// The number of the test, from 1.
    pub fn code(self) -> u32
        ensures { result ≡ test_code self }
    {
        match self {
            Test::Class => 1,
            Test::Witness => 2,
            Test::Balance => 3,
            Test::Price => 4,
            Test::Box => 5,
            Test::Freedom => 6,
            Test::Gap => 7,
            Test::State => 8,
            Test::Bounds => 9,
            Test::Statistic => 10,
            Test::Nodal => 11,
            Test::Verdict => 12,
            Test::Least => 13,
        }
    }
}

/// The part of a stage at which a test fails: a node, a stream, or the whole stage.
#[derive(Clone, Copy, Debug, PartialEq, Eq)]
pub enum Place {
    Node(u32),
    Stream(u32),
    Whole,
}

/// The first failure of a test: its place, what the stage states there, and what the rule gives. If there are no two numbers, both are 0.
#[derive(Clone, Copy, Debug, PartialEq, Eq)]
pub struct Fault {
    pub place: Place,
    pub stated: i128,
    pub found: i128,
}

/// Why a stage doesn't pass: the first test that fails, with its first failure; or lack of memory.
#[derive(Clone, Copy, Debug, PartialEq, Eq)]
pub enum CheckFault {
    At {
        test: Test,
        place: Place,
        stated: i128,
        found: i128,
    },
    NoMemory,
}

/// A failure at a stream, without numbers.
pub fn at_stream(stream: u32) -> Fault
    ensures { result ≡ record { place = Place.Stream stream; stated = pos 0; found = pos 0 } }
{
    Fault {
        place: Place::Stream(stream),
        stated: 0,
        found: 0,
    }
}

/// A failure at a node, with its two numbers.
pub fn at_node(node: u32, stated: i128, found: i128) -> Fault
    ensures { result ≡ record { place = Node node; stated = stated; found = found } }
{
    Fault {
        place: Place::Node(node),
        stated,
        found,
    }
}

/// A failure of the whole stage, with its two numbers.
pub fn whole(stated: i128, found: i128) -> Fault
    ensures { result ≡ record { place = Whole; stated = stated; found = found } }
{
    Fault {
        place: Place::Whole,
        stated,
        found,
    }
}
