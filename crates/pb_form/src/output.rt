// The rows of an output: the columns of each kind.

ghost use Rattle.std.specs.Prelude.{◌≡◌, ◌≤◌, ◌++◌, length, All, IsUtf8, IfOk, OnOk, OnErr};
ghost use Rattle.pb_form.specs.Given.{values_as};
ghost use Rattle.pb_form.specs.Json.{record_line};
ghost use Rattle.pb_form.specs.OutputRows.{output_columns, output_schema};
ghost use Rattle.pb_form.specs.Seen.{schema_seen};
ghost use Rattle.pb_form.specs.TextLaws.{OutputWordLaw};
ghost use Rattle.pb_form.specs.Texts.{texts_of};

use crate::column::{Column, Holds, Schema};
use crate::json::write_json;
use crate::session::MOST_METER_COST;
use crate::table::{column, optional, schema, word};
use crate::texts::write_texts;
use crate::value::{ROOM, Value};
use crate::words::{
    CAUSE_WORDS, CLASS_WORDS, EDIT_WORDS, MEASURED_WORDS, PERIOD_WORDS, SHAPE_WORDS, STATE_WORDS,
    STOP_WORDS, TEST_WORDS, UNREAD_WORDS, VERDICT_WORDS,
};
use pb_limits::{MOST_CRITICAL, MOST_FREEDOM, MOST_GAP, MOST_SWEEPS, MOST_VALUE, MOST_VARIANCE};
use pb_rows::Row;
use std::alloc::{AllocError, Global};

/// The kinds of the rows of an output.
#[derive(Clone, Copy, PartialEq, Eq, Debug)]
pub enum OutputKind {
    Refused,
    Over,
    Design,
    Class,
    History,
    Edit,
    Report,
    Node,
    Stream,
    /// A stream as it was written before there were least bounds.
    StreamBefore,
    Solved,
    Global,
    Nodal,
    Measure,
    End,
    Taken,
    Stop,
    Summary,
    Yes,
    No,
    Unreadable,
    Advise,
    Meter,
    Window,
    Place,
    Component,
}

// 2^126, the greatest of the numbers that no limit of a plant bounds.
const WIDEST: i128 = 85_070_591_730_234_615_865_843_651_857_942_052_864;

// 2^120, the greatest price.
const MOST_PRICE: i128 = 1_329_227_995_784_915_872_903_807_060_280_344_576;

// 2^68 - 1, the greatest flow.
const MOST_FLOW: i128 = 295_147_905_179_352_825_855;

const NATURAL: Holds = Holds::Number {
    lo: 0,
    hi: 18_446_744_073_709_551_615,
};

const WIDE: Holds = Holds::Number {
    lo: -WIDEST,
    hi: WIDEST,
};

const ROUND: Holds = Holds::Number { lo: 0, hi: 20 };

const GAP: Holds = Holds::Number {
    lo: 1,
    hi: MOST_GAP as i128,
};

const SWEEPS: Holds = Holds::Number {
    lo: 0,
    hi: MOST_SWEEPS as i128,
};

const PRICE: Holds = Holds::Number {
    lo: -MOST_PRICE,
    hi: MOST_PRICE,
};

const VALUE: Holds = Holds::Number {
    lo: -(MOST_VALUE as i128),
    hi: MOST_VALUE as i128,
};

const VARIANCE: Holds = Holds::Number {
    lo: 1,
    hi: MOST_VARIANCE,
};

const FLOW: Holds = Holds::Number {
    lo: -MOST_FLOW,
    hi: MOST_FLOW,
};

const GAP_NUMBER: Holds = Holds::Number {
    lo: 0,
    hi: 9_223_372_036_854_775_808,
};

const EXPONENT: Holds = Holds::Number { lo: 0, hi: 32 };

const DOF: Holds = Holds::Number {
    lo: 0,
    hi: MOST_FREEDOM as i128,
};

const COST: Holds = Holds::Number {
    lo: 0,
    hi: MOST_METER_COST,
};

const CRITICAL: Holds = Holds::Number {
    lo: 0,
    hi: MOST_CRITICAL as i128,
};

static REFUSED: Schema = schema!(
    word!("row", "refused"),
    column!("at", NATURAL),
    column!("code", NATURAL),
    column!("word", Holds::Word(CAUSE_WORDS))
);

static OVER: Schema = schema!(
    word!("row", "over"),
    column!("period", Holds::Name),
    column!("stream", Holds::Name)
);

static DESIGN: Schema = schema!(
    word!("row", "design"),
    column!("nodes", NATURAL),
    column!("streams", NATURAL)
);

static CLASS: Schema = schema!(
    word!("row", "class"),
    column!("name", Holds::Name),
    column!("from", Holds::Name),
    column!("to", Holds::Name),
    column!("measured", Holds::Word(MEASURED_WORDS)),
    column!("class", Holds::Word(CLASS_WORDS)),
    column!("shape", Holds::Word(SHAPE_WORDS)),
    column!("side", Holds::Items),
    column!("parts", Holds::Items)
);

static HISTORY: Schema = schema!(
    word!("row", "history"),
    column!("period", Holds::Name),
    column!("state", Holds::Word(PERIOD_WORDS)),
    column!("count", NATURAL)
);

static EDIT: Schema = schema!(
    word!("row", "edit"),
    column!("at", NATURAL),
    column!("word", Holds::Word(EDIT_WORDS)),
    optional!("id", Holds::Name),
    optional!("reason", Holds::Reason)
);

static REPORT: Schema = schema!(
    word!("row", "report"),
    column!("period", Holds::Name),
    column!("round", ROUND),
    column!("nodes", WIDE),
    column!("streams", WIDE),
    column!("gap", GAP),
    column!("sweeps", SWEEPS)
);

static NODE: Schema = schema!(
    word!("row", "node"),
    column!("name", Holds::Name),
    column!("price", PRICE)
);

static STREAM: Schema = schema!(
    word!("row", "stream"),
    column!("name", Holds::Name),
    column!("from", Holds::Name),
    column!("to", Holds::Name),
    optional!("value", VALUE),
    optional!("variance", VARIANCE),
    column!("class", Holds::Word(CLASS_WORDS)),
    column!("flow", FLOW),
    optional!("lo", WIDE),
    optional!("hi", WIDE),
    optional!("least_lo", WIDE),
    optional!("least_hi", WIDE),
    column!("shape", Holds::Word(SHAPE_WORDS)),
    column!("side", Holds::Items),
    column!("parts", Holds::Items)
);

static STREAM_BEFORE: Schema = schema!(
    word!("row", "stream"),
    column!("name", Holds::Name),
    column!("from", Holds::Name),
    column!("to", Holds::Name),
    optional!("value", VALUE),
    optional!("variance", VARIANCE),
    column!("class", Holds::Word(CLASS_WORDS)),
    column!("flow", FLOW),
    optional!("lo", WIDE),
    optional!("hi", WIDE),
    column!("shape", Holds::Word(SHAPE_WORDS)),
    column!("side", Holds::Items),
    column!("parts", Holds::Items)
);

static SOLVED: Schema = schema!(
    word!("row", "solved"),
    column!("k", SWEEPS),
    column!("state", Holds::Word(STATE_WORDS)),
    column!("g", GAP_NUMBER),
    column!("h", EXPONENT),
    column!("dof", DOF),
    column!("low", WIDE),
    optional!("high", WIDE)
);

static GLOBAL: Schema = schema!(
    word!("row", "global"),
    optional!("critical", CRITICAL),
    column!("verdict", Holds::Word(VERDICT_WORDS))
);

static NODAL: Schema = schema!(
    word!("row", "nodal"),
    column!("node", Holds::Name),
    column!("net", WIDE),
    column!("variance", WIDE),
    optional!("critical", CRITICAL),
    column!("verdict", Holds::Word(VERDICT_WORDS))
);

static MEASURE: Schema = schema!(
    word!("row", "measure"),
    column!("stream", Holds::Name),
    column!("low", WIDE),
    optional!("high", WIDE),
    optional!("critical", CRITICAL),
    column!("verdict", Holds::Word(VERDICT_WORDS))
);

static END: Schema = schema!(
    word!("row", "end"),
    column!("period", Holds::Name),
    column!("round", ROUND)
);

static TAKEN: Schema = schema!(
    word!("row", "taken"),
    column!("period", Holds::Name),
    column!("round", ROUND),
    column!("stream", Holds::Name),
    column!("low", WIDE)
);

static STOP: Schema = schema!(
    word!("row", "stop"),
    column!("period", Holds::Name),
    column!("reason", Holds::Word(STOP_WORDS)),
    column!("rounds", ROUND)
);

static SUMMARY: Schema = schema!(
    word!("row", "summary"),
    column!("number", NATURAL),
    column!("streams", NATURAL),
    column!("rows", NATURAL),
    column!("observable", NATURAL),
    column!("unobservable", NATURAL),
    column!("redundant", NATURAL),
    column!("nonredundant", NATURAL),
    column!("dof", NATURAL),
    column!("state", Holds::Word(STATE_WORDS)),
    column!("k", NATURAL),
    column!("low", WIDE),
    optional!("high", WIDE)
);

static YES: Schema = schema!(
    word!("row", "yes"),
    column!("period", Holds::Name),
    column!("round", ROUND)
);

static NO: Schema = schema!(
    word!("row", "no"),
    column!("period", Holds::Name),
    column!("round", ROUND),
    column!("code", NATURAL),
    column!("word", Holds::Word(TEST_WORDS)),
    optional!("name", Holds::Name),
    column!("stated", WIDE),
    column!("found", WIDE)
);

static UNREADABLE: Schema = schema!(
    word!("row", "unreadable"),
    column!("at", NATURAL),
    column!("code", NATURAL),
    column!("word", Holds::Word(UNREAD_WORDS))
);

static ADVISE: Schema = schema!(
    word!("row", "advise"),
    column!("count", NATURAL),
    column!("total", NATURAL)
);

static METER: Schema = schema!(
    word!("row", "meter"),
    column!("stream", Holds::Name),
    column!("cost", COST),
    column!("parts", Holds::Items)
);

static WINDOW: Schema = schema!(
    word!("row", "window"),
    column!("first", Holds::Name),
    column!("last", Holds::Name),
    column!("periods", NATURAL)
);

static PLACE: Schema = schema!(
    word!("row", "place"),
    column!("code", Holds::Name),
    column!("period", Holds::Name),
    column!("name", Holds::Name)
);

static COMPONENT: Schema = schema!(
    word!("row", "component"),
    column!("component", Holds::Name),
    column!("period", Holds::Name)
);

/// The schema of a kind.
pub fn output_schema(kind: OutputKind) -> &'static Schema
    ensures value { schema_seen result.now ≡ output_schema kind }
    ensures few { length result.now.columns.now ≤ ROOM }
{
    match kind {
        OutputKind::Refused => &REFUSED,
        OutputKind::Over => &OVER,
        OutputKind::Design => &DESIGN,
        OutputKind::Class => &CLASS,
        OutputKind::History => &HISTORY,
        OutputKind::Edit => &EDIT,
        OutputKind::Report => &REPORT,
        OutputKind::Node => &NODE,
        OutputKind::Stream => &STREAM,
        OutputKind::StreamBefore => &STREAM_BEFORE,
        OutputKind::Solved => &SOLVED,
        OutputKind::Global => &GLOBAL,
        OutputKind::Nodal => &NODAL,
        OutputKind::Measure => &MEASURE,
        OutputKind::End => &END,
        OutputKind::Taken => &TAKEN,
        OutputKind::Stop => &STOP,
        OutputKind::Summary => &SUMMARY,
        OutputKind::Yes => &YES,
        OutputKind::No => &NO,
        OutputKind::Unreadable => &UNREADABLE,
        OutputKind::Advise => &ADVISE,
        OutputKind::Meter => &METER,
        OutputKind::Window => &WINDOW,
        OutputKind::Place => &PLACE,
        OutputKind::Component => &COMPONENT,
    }
}

/// The record of a kind: the text of each value, the first of which is the kind's word.
pub fn output_record(alloc: Global, kind: OutputKind, values: &[Value]) -> Result<Row, AllocError>
    requires { length values.now ≡ length (output_columns kind) }
    ensures fields { IfOk result (λ row. row
        ≡ texts_of (output_columns kind) (values_as (output_columns kind) values.now)) }
    ensures each { IfOk result (λ row. length row ≡ length (output_columns kind)) }
    ensures texts { IfOk result (All IsUtf8) }
{
    write_texts(alloc, output_schema(kind).columns, values)
}

/// Appends a record of a kind as a line of JSON: an object with the text of each field under its column's key, and a line feed.
/// After an `Err`, out of memory, the text is as it was.
pub fn output_json(kind: OutputKind, row: &Row, out: &mut Vec<u8>) -> Result<(), AllocError>
    requires each { length row.now ≡ length (output_columns kind) }
    requires texts { All IsUtf8 row.now }
    ensures appended { OnOk result (out.new.items
        ≡ out.old.items ++ record_line (output_columns kind) row.now) }
    ensures unchanged { OnErr result (out.new.items ≡ out.old.items) }
{
    write_json(output_schema(kind), row, out)
}

/// The law that each row of an output begins with a word.
pub fn output_word_law()
    ensures { OutputWordLaw }
{}
