// The readings of a made session, as numbers.

ghost use Rattle.std.specs.Prelude.{◌≡◌, ◌<◌, ◌≤◌, ◌≤ℤ◌, ◌*◌, pos};
ghost use Rattle.pb_limits.specs.Limits.{most_made_streams};
ghost use Rattle.pb_make.specs.Readings.{day_read, error_of_draw, is_plain_stream, made_days, meter_variance, metered_at, readings_of, shown_grams, stream_read};

/// The number of days.
pub const MADE_DAYS: u32 = 30;

/// Whether the stream of this number is plain: every seventh is.
pub fn is_plain(i: u32) -> bool
    ensures { result ≡ is_plain_stream i }
{
    i % 7 == 0
}

/// The number of readings in a session of this many streams.
pub fn readings_of(streams: u32) -> u32
    requires { streams ≤ most_made_streams }
    ensures value { result ≡ readings_of streams }
{
    MADE_DAYS * (streams - streams / 7)
}

/// The number of the stream whose reading is at a place.
pub fn stream_read(place: u32) -> u32
    requires { place ≤ made_days * most_made_streams }
    ensures value { result ≡ stream_read place }
{
    metered_at(place / MADE_DAYS)
}

// The number of the metered stream at a place.
fn metered_at(place: u32) -> u32
    requires { place ≤ most_made_streams }
    ensures { result ≡ metered_at place }
{
    place + place / 6 + 1
}

/// The day of the month of the reading at a place.
pub fn day_read(place: u32) -> u8
    ensures value { result ≡ day_read place }
{
    (place % MADE_DAYS) as u8 + 1
}

// The error of a draw, in hundred-thousandths.
fn error_of(draw: u32) -> i128
    ensures { result ≡ error_of_draw draw }
{
    i128::from(draw % 2_001) - 1_000
}

/// What a meter shows at a true flow and a draw, in grams.
pub fn shown_grams(truth: i128, draw: u32) -> i128
    requires least { pos 1 ≤ℤ truth }
    requires most { truth ≤ℤ pos 100000000000 }
    ensures value { result ≡ shown_grams truth (error_of_draw draw) }
{
    truth + (truth * error_of(draw)).div_euclid(100_000)
}

/// The variance of a meter at a true flow, in squared grams.
pub fn variance_of(truth: i128) -> i128
    requires least { pos 1 ≤ℤ truth }
    requires most { truth ≤ℤ pos 100000000000 }
    ensures value { result ≡ meter_variance truth }
{
    let deviation = truth.div_euclid(200);
    deviation * deviation
}
